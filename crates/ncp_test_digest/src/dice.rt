//! `Dice`.
ghost use Rattle.std.specs.Prelude.{◌<◌, ◌≤◌, ◌^◌};

// Numbers at limits.
const EDGES: [u32; 16] = [
    0,
    1,
    2,
    8,
    64,
    71,
    72,
    255,
    256,
    8192,
    8193,
    65_535,
    65_536,
    65_537,
    0x7fff_ffff,
    0xffff_ffff,
];

/// Pseudorandom numbers, the same in each run.
#[derive(Drop)]
pub struct Dice {
    state: u64,
}

impl Dice {
    pub fn new() -> Self {
        Dice {
            state: 88_172_645_463_325_252,
        }
    }

    fn roll(&mut self) -> u64 {
        self.state ^= self.state << 13;
        self.state ^= self.state >> 7;
        self.state ^= self.state << 17;
        self.state >> 16
    }

    /// A number below another.
    pub fn pick(&mut self, below: u64) -> u64
        requires { 0 < below }
        ensures { result < below }
    {
        self.roll() % below
    }

    /// True one time in `many`, at random.
    pub fn one_in(&mut self, many: u64) -> bool
        requires { 0 < many }
    {
        self.pick(many) == 0
    }

    /// A byte.
    pub fn byte(&mut self) -> u8 {
        self.pick(256) as u8
    }

    /// A byte that is mostly zero.
    pub fn rarely(&mut self) -> u8 {
        if self.one_in(16) { self.byte() } else { 0 }
    }

    /// A byte below another number.
    pub fn small(&mut self, below: u64) -> u8
        requires some { 0 < below }
        requires small { below ≤ 256 }
        ensures { result < below }
    {
        self.pick(below) as u8
    }

    /// A length below another.
    pub fn size(&mut self, below: u64) -> usize
        requires { 0 < below }
        ensures { result < below }
    {
        self.pick(below) as usize
    }

    /// A number below another, or any 32-bit number one time in `many`.
    pub fn mostly(&mut self, below: u64, many: u64) -> u32
        requires some { 0 < below }
        requires fits { below ≤ 2 ^ 32 }
        requires many { 0 < many }
        ensures { result < 2 ^ 32 }
    {
        let bound = if self.one_in(many) {
            4_294_967_296
        } else {
            below
        };
        self.pick(bound) as u32
    }

    /// A number that is often at a limit.
    pub fn edge(&mut self) -> u32 {
        let which = self.size(20);
        if which < 16 {
            EDGES[which]
        } else {
            self.pick(4_294_967_296) as u32
        }
    }

    /// The length of a buffer, mostly the length that is enough.
    pub fn room(&mut self, enough: u64) -> usize
        requires { 0 < enough }
        ensures { result ≤ enough }
    {
        if self.one_in(16) {
            self.size(enough)
        } else {
            enough as usize
        }
    }
}
