// Standard error: messages, and the line that shows how far a run has come.
use diagnostics::{Progress, progress_line};
use rm_base::Gate;
use std::alloc::Global;
use std::env;
use std::io::{IsTerminal, Stderr, Write};
use std::rt::{Clock, Env};
use std::sync::atomic::{AtomicU64, Ordering};
use std::time::Instant;

const WIDTH: usize = 79;

/// Standard error. Where it is a terminal, a line shows how far the run has come: it is drawn at most once a second, and erased
/// before anything else is shown. Where standard error fails, nothing changes.
#[derive(Drop)]
pub struct Watch<'a, R: Clock> {
    rt: &'a R,
    error: Stderr,
    is_terminal: bool,
    colours: bool,
    /// When the run began, where the line is shown.
    began: Option<Instant>,
    /// The second of the run in which the line was drawn last; 0 where it isn't there.
    drawn: AtomicU64,
    batches: AtomicU64,
}

// Whether a variable of the environment is there and not empty.
fn is_set<R: Env + AllocGlobal>(rt: &R, name: &str) -> bool {
    match env::var(rt, name) {
        Ok(value) => !value.is_empty(),
        Err(_) => false,
    }
}

impl<'a, R: Clock> Watch<'a, R> {
    /// A watch that shows messages alone, without colours.
    pub fn quiet(rt: &'a R, error: Stderr) -> Self {
        Watch {
            rt,
            error,
            is_terminal: false,
            colours: false,
            began: None,
            drawn: AtomicU64::new(0),
            batches: AtomicU64::new(0),
        }
    }

    pub fn is_terminal(&self) -> bool {
        self.is_terminal
    }

    pub fn colours(&self) -> bool {
        self.colours
    }

    /// Shows a message.
    pub fn show(&self, message: &[u8]) {
        if !message.is_empty() {
            self.erase();
            let _ = (&self.error).write_all(message);
        }
    }

    // The second of the run in which the line is to be drawn again, if it is.
    fn due(&self) -> Option<u64> {
        let Some(began) = self.began else {
            return None;
        };
        let Ok(elapsed) = began.elapsed(self.rt) else {
            return None;
        };
        let now = elapsed.as_secs();
        let last = self.drawn.load(Ordering::SeqCst);
        if now <= last {
            return None;
        }
        match self
            .drawn
            .compare_exchange(last, now, Ordering::SeqCst, Ordering::SeqCst)
        {
            Ok(_) => Some(now),
            Err(_) => None,
        }
    }

    /// Draws the line, if a second has passed.
    pub fn draw(&self, alloc: Global, progress: &Progress) {
        if let Some(seconds) = self.due()
            && let Ok(line) = progress_line(alloc, seconds, progress)
        {
            self.write_over(line.as_slice());
        }
    }

    // Writes a line over the one that is there.
    fn write_over(&self, line: &[u8]) {
        let mut screen = [b' '; 80];
        screen[0] = b'\r';
        let count = line.len().min(WIDTH);
        screen[1..1 + count].copy_from_slice(&line[..count]);
        let _ = (&self.error).write_all(&screen);
    }

    /// Takes the line away.
    pub fn erase(&self) {
        if self.drawn.swap(0, Ordering::SeqCst) > 0 {
            self.write_over(b"");
            let _ = (&self.error).write_all(b"\r");
        }
    }
}

impl<'a, R: Clock + Env + AllocGlobal> Watch<'a, R> {
    /// A watch that shows messages, and on a terminal colours and the line, unless the environment says otherwise.
    pub fn new(rt: &'a R, error: Stderr) -> Self {
        let is_terminal = error.is_terminal();
        let began = if is_terminal && !is_set(rt, "RAMBO_QUIET") {
            Instant::now(rt).ok()
        } else {
            None
        };
        Watch {
            rt,
            error,
            is_terminal,
            colours: is_terminal && !is_set(rt, "NO_COLOR"),
            began,
            drawn: AtomicU64::new(0),
            batches: AtomicU64::new(0),
        }
    }
}

/// The workers' pieces pass at once, and their batches are counted.
#[derive(Drop)]
pub struct CountingGate<'a, R: Clock> {
    watch: &'a Watch<'a, R>,
    alloc: Global,
}

impl<'a, R: Clock> CountingGate<'a, R> {
    pub fn new(watch: &'a Watch<'a, R>, alloc: Global) -> Self {
        CountingGate { watch, alloc }
    }
}

impl<'a, R: Clock + Sync> Gate for CountingGate<'a, R> {
    fn pass(&self, piece: usize) {
        if piece == 0 {
            let batches = self
                .watch
                .batches
                .fetch_add(1, Ordering::SeqCst)
                .saturating_add(1);
            let progress = Progress {
                batches,
                ..Progress::default()
            };
            self.watch.draw(self.alloc, &progress);
        }
    }
}
