#![tactic(auto)]
// A line read back as a record block.
pub mod block;
pub mod line;

// Where the names of a line stand and how long they are: `second`, `third` and `numbers` are the places behind the first, the second and the third name.
#[derive(Clone, Copy)]
pub struct Names {
    pub public: usize,
    pub private: usize,
    pub server: usize,
    pub second: usize,
    pub third: usize,
    pub numbers: usize,
}

// The numbers of a line, and the place behind it.
#[derive(Clone, Copy)]
pub struct Values {
    pub numbers: [usize; 18],
    pub end: usize,
}
