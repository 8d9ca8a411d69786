// The ranks of covers by the covers that they read: a cover waits for the first of them that has no
// rank yet.
ghost use Rattle.std.specs.Prelude.{◌≡◌, ◌^◌, ◌<◌, ◌≤◌, ℕ, [], ◌∷◌, ◌++◌, length, map, take, IfOk, OnOk, Some, None, Option, slice_set, All, slice_index, slice_index_or, is_some, ◌+◌, slice_get, replicate};
ghost use Rattle.rm_model.specs.Ranks.{rank_at};
ghost use Rattle.rm_model.specs.Inner.Numbers.{rank_over};
ghost use Rattle.rm_model.specs.Inner.Search.{list_at, start, waiting_for, with_rank, AllowsRank, AreKnown, IsSettled, IsSound, LeadsTo};
ghost use Rattle.rm_model.specs.Inner.SearchView.{state_of};

use rm_base::NoMemory;
use std::alloc::Global;
use std::mem;

/// How many drivers of a cover have a rank, from the first on, and the least rank that they allow.
#[derive(Clone, Copy)]
pub struct Looked {
    pub count: usize,
    pub least: u32,
}

#[derive(Drop)]
pub struct Search {
    pub ranks: Vec<Option<u32>>,
    pub looked: Vec<Looked>,
    pub waiting: Vec<Vec<u32>>,
    pub order: Vec<u32>,
}

fn look_on(drivers: &[u32], ranks: &[Option<u32>], from: Looked) -> Looked
    requires within { from.count ≤ length drivers.now }
    requires least { rank_over ranks.now (take from.count drivers.now) ≡ Some from.least }
    requires room { length ranks.now < 2 ^ 32 }
    requires small { (k n : ℕ) → rank_at ranks.now k ≡ Some n → n < length ranks.now }
    requires known { All (λ k. k < length ranks.now) drivers.now }
    ensures within { result.count ≤ length drivers.now }
    ensures least { rank_over ranks.now (take result.count drivers.now) ≡ Some result.least }
    ensures stopped { result.count < length drivers.now
        → rank_at ranks.now (slice_index drivers.now result.count) ≡ None }
{
    let mut looked = from;
    while looked.count < drivers.len() {
        let driver = drivers[looked.count] as usize;
        match ranks[driver] {
            None => return looked,
            Some(rank) => {
                looked = Looked {
                    count: looked.count + 1,
                    least: looked.least.max(rank + 1),
                };
            }
        }
    }
    looked
}

fn add_waiting(waiting: &mut Vec<Vec<u32>>, driver: usize, cover: u32) -> Result<(), NoMemory>
    requires { driver < length waiting.old.items }
    ensures { OnOk result (map (λ w. w.items) waiting.new.items
        ≡ slice_set (map (λ w. w.items) waiting.old.items) driver
        (list_at (map (λ w. w.items) waiting.old.items) driver ++ cover ∷ [])) }
{
    let list = &mut waiting[driver];
    list.push(cover)?;
    Ok(())
}

fn take_waiting(alloc: Global, waiting: &mut Vec<Vec<u32>>, driver: usize) -> Vec<u32>
    requires { driver < length waiting.old.items }
    ensures taken { result.items ≡ list_at (map (λ w. w.items) waiting.old.items) driver }
    ensures left { map (λ w. w.items) waiting.new.items
        ≡ slice_set (map (λ w. w.items) waiting.old.items) driver [] }
{
    mem::replace(&mut waiting[driver], Vec::new(alloc))
}

fn list_of(lists: &[Vec<u32>], place: usize) -> &[u32]
    requires { place < length lists.now }
    ensures { result.now ≡ list_at (map (λ l. l.items) lists.now) place }
{
    lists[place].as_slice()
}

fn no_ranks(alloc: Global, count: usize) -> Result<Vec<Option<u32>>, NoMemory>
    ensures { IfOk result (λ ranks. ranks.items ≡ replicate count None) }
{
    let mut ranks = Vec::new(alloc);
    for _ in 0..count {
        ranks.push(None)?;
    }
    Ok(ranks)
}

fn no_lists(alloc: Global, count: usize) -> Result<Vec<Vec<u32>>, NoMemory>
    ensures { IfOk result (λ lists. map (λ l. l.items) lists.items ≡ replicate count []) }
{
    let mut lists = Vec::new(alloc);
    for _ in 0..count {
        lists.push(Vec::new(alloc))?;
    }
    Ok(lists)
}

impl Search {
    fn look_further(&self, drivers: &[u32], cover: usize) -> Looked
        requires cover { cover < length self.now.looked.items }
        requires looked { AllowsRank self.now.ranks.items drivers.now
            (slice_index_or self.now.looked.items cover (record { count = 0; least = 0 })) }
        requires room { length self.now.ranks.items < 2 ^ 32 }
        requires small { (k n : ℕ) → rank_at self.now.ranks.items k ≡ Some n → n < length self.now.ranks.items }
        requires known { All (λ k. k < length self.now.ranks.items) drivers.now }
        ensures looked { AllowsRank self.now.ranks.items drivers.now result }
        ensures stopped { result.count < length drivers.now
            → rank_at self.now.ranks.items (slice_index drivers.now result.count) ≡ None }
    {
        look_on(drivers, self.ranks.as_slice(), self.looked[cover])
    }

    fn wait(&mut self, driver: usize, cover: u32, looked: Looked) -> Result<(), NoMemory>
        requires driver { driver < length self.old.waiting.items }
        requires cover { cover < length self.old.looked.items }
        ensures { OnOk result (state_of self.new ≡ waiting_for (state_of self.old) cover looked driver) }
    {
        self.looked[cover as usize] = looked;
        add_waiting(&mut self.waiting, driver, cover)
    }

    fn rank(&mut self, cover: u32, looked: Looked) -> Result<(), NoMemory>
        requires cover { cover < length self.old.looked.items }
        requires same { length self.old.looked.items ≡ length self.old.ranks.items }
        ensures { OnOk result (state_of self.new ≡ with_rank (state_of self.old) cover looked) }
    {
        self.looked[cover as usize] = looked;
        self.ranks[cover as usize] = Some(looked.least);
        self.order.push(cover)?;
        Ok(())
    }

    fn has_rank(&self, cover: usize) -> bool
        requires { cover < length self.now.ranks.items }
        ensures { result ≡ is_some (rank_at self.now.ranks.items cover) }
    {
        self.ranks[cover].is_some()
    }

    fn look_at_unranked(&mut self, drivers: &[Vec<u32>], cover: u32) -> Result<(), NoMemory>
        requires sound { IsSound (map (λ d. d.items) drivers.now) (state_of self.old) }
        requires known { AreKnown (map (λ d. d.items) drivers.now) }
        requires room { length drivers.now < 2 ^ 32 }
        requires cover { cover < length drivers.now }
        requires unknown { rank_at self.old.ranks.items cover ≡ None }
        ensures leads { OnOk result
            (LeadsTo (map (λ d. d.items) drivers.now) (state_of self.old) (state_of self.new)) }
        ensures settled { OnOk result ((place : ℕ)
            → IsSettled (map (λ d. d.items) drivers.now) place (state_of self.new) cover) }
    {
        let list = list_of(drivers, cover as usize);
        let looked = self.look_further(list, cover as usize);
        if looked.count < list.len() {
            self.wait(list[looked.count] as usize, cover, looked)
        } else {
            self.rank(cover, looked)
        }
    }

    /// Gives a cover its rank if all its drivers have theirs, and else lets it wait.
    fn look_at(&mut self, drivers: &[Vec<u32>], cover: u32) -> Result<(), NoMemory>
        requires sound { IsSound (map (λ d. d.items) drivers.now) (state_of self.old) }
        requires known { AreKnown (map (λ d. d.items) drivers.now) }
        requires room { length drivers.now < 2 ^ 32 }
        requires cover { cover < length drivers.now }
        ensures leads { OnOk result
            (LeadsTo (map (λ d. d.items) drivers.now) (state_of self.old) (state_of self.new)) }
        ensures settled { OnOk result ((place : ℕ)
            → IsSettled (map (λ d. d.items) drivers.now) place (state_of self.new) cover) }
    {
        if self.has_rank(cover as usize) {
            return Ok(());
        }
        self.look_at_unranked(drivers, cover)
    }

    fn look_at_all(&mut self, drivers: &[Vec<u32>], covers: &[u32]) -> Result<(), NoMemory>
        requires sound { IsSound (map (λ d. d.items) drivers.now) (state_of self.old) }
        requires known { AreKnown (map (λ d. d.items) drivers.now) }
        requires room { length drivers.now < 2 ^ 32 }
        requires covers { All (λ k. k < length drivers.now) covers.now }
        ensures leads { OnOk result
            (LeadsTo (map (λ d. d.items) drivers.now) (state_of self.old) (state_of self.new)) }
        ensures settled { OnOk result ((place p k : ℕ) → place ≤ length self.old.order.items
            → slice_get covers.now p ≡ Some k
            → IsSettled (map (λ d. d.items) drivers.now) place (state_of self.new) k) }
    {
        for cover in covers {
            self.look_at(drivers, *cover)?;
        }
        Ok(())
    }

    /// Looks again at the covers that wait for the cover at that place of the order.
    fn wake(&mut self, alloc: Global, drivers: &[Vec<u32>], place: usize) -> Result<(), NoMemory>
        requires sound { IsSound (map (λ d. d.items) drivers.now) (state_of self.old) }
        requires known { AreKnown (map (λ d. d.items) drivers.now) }
        requires room { length drivers.now < 2 ^ 32 }
        requires place { place < length self.old.order.items }
        ensures sound { OnOk result (IsSound (map (λ d. d.items) drivers.now) (state_of self.new)) }
        ensures settled { OnOk result ((k : ℕ)
            → IsSettled (map (λ d. d.items) drivers.now) place (state_of self.old) k
            → IsSettled (map (λ d. d.items) drivers.now) (place + 1) (state_of self.new) k) }
    {
        let cover = self.order[place] as usize;
        let waiting = take_waiting(alloc, &mut self.waiting, cover);
        self.look_at_all(drivers, waiting.as_slice())
    }

    fn look_at_each(&mut self, drivers: &[Vec<u32>]) -> Result<(), NoMemory>
        requires sound { IsSound (map (λ d. d.items) drivers.now) (state_of self.old) }
        requires known { AreKnown (map (λ d. d.items) drivers.now) }
        requires room { length drivers.now < 2 ^ 32 }
        ensures sound { OnOk result (IsSound (map (λ d. d.items) drivers.now) (state_of self.new)) }
        ensures settled { OnOk result ((k : ℕ) → k < length drivers.now
            → IsSettled (map (λ d. d.items) drivers.now) 0 (state_of self.new) k) }
    {
        for cover in 0..drivers.len() {
            self.look_at(drivers, cover as u32)?;
        }
        Ok(())
    }

    fn wake_each(&mut self, alloc: Global, drivers: &[Vec<u32>]) -> Result<(), NoMemory>
        requires sound { IsSound (map (λ d. d.items) drivers.now) (state_of self.old) }
        requires known { AreKnown (map (λ d. d.items) drivers.now) }
        requires room { length drivers.now < 2 ^ 32 }
        requires settled { (k : ℕ) → k < length drivers.now
            → IsSettled (map (λ d. d.items) drivers.now) 0 (state_of self.old) k }
        ensures sound { OnOk result (IsSound (map (λ d. d.items) drivers.now) (state_of self.new)) }
        ensures settled { OnOk result ((k : ℕ) → k < length drivers.now
            → IsSettled (map (λ d. d.items) drivers.now) (length self.new.order.items)
            (state_of self.new) k) }
    {
        let mut place = 0;
        while place < self.order.len() {
            self.wake(alloc, drivers, place)?;
            place += 1;
        }
        Ok(())
    }

    fn new(alloc: Global, count: usize) -> Result<Search, NoMemory>
        ensures { IfOk result (λ s. state_of s ≡ start count) }
    {
        let ranks = no_ranks(alloc, count)?;
        let waiting = no_lists(alloc, count)?;
        let looked = vec![in alloc; Looked { count: 0, least: 0 }; count]?;
        Ok(Search {
            ranks,
            looked,
            waiting,
            order: Vec::new(alloc),
        })
    }
}

/// Finds the ranks of covers that read these covers, in time linear in the lists.
pub fn find_ranks(alloc: Global, drivers: &[Vec<u32>]) -> Result<Search, NoMemory>
    requires known { AreKnown (map (λ d. d.items) drivers.now) }
    requires room { length drivers.now < 2 ^ 32 }
    ensures sound { IfOk result (λ s. IsSound (map (λ d. d.items) drivers.now) (state_of s)) }
    ensures ranks { IfOk result (λ s. s.ranks.items
        ≡ map (rank_over s.ranks.items) (map (λ d. d.items) drivers.now)) }
{
    let mut found = Search::new(alloc, drivers.len())?;
    found.look_at_each(drivers)?;
    found.wake_each(alloc, drivers)?;
    Ok(found)
}
