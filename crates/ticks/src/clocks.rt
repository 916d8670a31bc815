// The ready ticks of the processors, which advance replica by replica.
ghost use Rattle.std.specs.Prelude.{◌≡◌, ◌/◌, length, replicate};
ghost use Rattle.ticks.specs.Lanes.{advanced};

// For each processor the finish of its newest replica, early and late.
#[derive(Clone, Copy)]
pub struct Clocks {
    pub early: [u32; 16],
    pub late: [u32; 16],
}

impl Clocks {
    // All processors are ready at 0.
    pub fn new() -> Clocks
        ensures { (result.early ≡ replicate 16 0) × (result.late ≡ replicate 16 0) }
    {
        Clocks {
            early: [0; 16],
            late: [0; 16],
        }
    }

    // The clocks after the replicas of a line, replica by replica: three cells each, processor, early tick and late tick.
    pub fn advance(mut self, cells: &[u64]) -> Clocks
        ensures early { result.early ≡ advanced 1 (length cells.now / 3) cells.now self.early }
        ensures late { result.late ≡ advanced 2 (length cells.now / 3) cells.now self.late }
    {
        for [processor, early, late] in cells.as_chunks::<3>().0 {
            let processor = *processor as usize;
            if processor < 16 {
                self.early[processor] = (*early % 4294967296) as u32;
                self.late[processor] = (*late % 4294967296) as u32;
            }
        }
        self
    }
}
