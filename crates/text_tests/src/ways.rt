// The ways in which names are looked up: by their order, and by hashes under keys of this file's own.
use rm_model::NameKeys;
use std::hash::RandomState;
use std::io;
use std::random::RandomSource;

// One byte again and again, in place of chance.
struct Repeated(u8);

impl RandomSource for Repeated {
    fn fill_bytes(&self, buf: &mut [u8]) -> io::Result<()> {
        buf.fill(self.0);
        Ok(())
    }
}

pub(crate) fn ways() -> io::Result<[NameKeys; 3]> {
    Ok([
        NameKeys::Ordered,
        NameKeys::Drawn(RandomState::new(&Repeated(0))?),
        NameKeys::Drawn(RandomState::new(&Repeated(201))?),
    ])
}
