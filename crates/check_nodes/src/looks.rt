//! At how many places look-ups look.

use std::io;

/// At how many places the look-ups of a store have looked.
#[derive(Clone, Copy, Default)]
pub struct Looks {
    finds: u64,
    all: u64,
    most: usize,
}

impl Looks {
    /// Counts a look-up that has looked at so many.
    pub fn count(&mut self, steps: usize) {
        self.finds = self.finds.wrapping_add(1);
        self.all = self.all.wrapping_add(steps as u64);
        self.most = self.most.max(steps);
    }

    /// Writes the mean and the greatest of these numbers.
    pub fn write(&self, rt: &impl Print, call: &str, what: &str) -> io::Result<()> {
        let hundredths = self
            .all
            .wrapping_mul(100)
            .checked_div(self.finds)
            .unwrap_or(0);
        let (whole, rest) = (hundredths / 100, hundredths % 100);
        let most = self.most;
        println!(rt;
            "{call}, {what}: {} look-ups, a mean of {whole}.{rest:02} places, at most {most}",
            self.finds
        )
    }
}
