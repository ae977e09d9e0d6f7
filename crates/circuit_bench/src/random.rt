// Numbers that look random and are the same at each run.
#[derive(Drop)]
pub struct Random(u64);

impl Random {
    pub fn new(seed: u64) -> Random {
        Random(seed.wrapping_add(12345))
    }

    /// One of the numbers below a limit; 0 where there is none.
    pub fn below(&mut self, limit: u64) -> u64 {
        self.0 = self
            .0
            .wrapping_mul(6364136223846793005)
            .wrapping_add(1442695040888963407);
        if limit == 0 {
            return 0;
        }
        (self.0 >> 33) % limit
    }
}
