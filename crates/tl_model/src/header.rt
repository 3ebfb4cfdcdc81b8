ghost use Rattle.std.specs.Prelude.{◌≡◌};
ghost use Rattle.tl_model.specs.Limits.{input_limit, output_limit};

/// By which rule the next job is chosen among those that can be run.
#[derive(Clone, Copy, Debug, PartialEq, Eq)]
pub enum OrderRule {
    /// The greatest priority goes first.
    Strict,
    /// Each priority gets its share of the claims, a greater one a greater share.
    Shares,
}

/// Which version of the script's and the journal's language is spoken.
#[derive(Clone, Copy, Debug, PartialEq, Eq)]
pub enum Version {
    One,
    Two,
}

impl Version {
    /// The greatest number of inputs of a job.
    pub fn input_limit(self) -> usize
        ensures { result ≡ input_limit self }
    {
        match self {
            Version::One => 16,
            Version::Two => 64,
        }
    }

    /// The greatest number of outputs of a job.
    pub fn output_limit(self) -> usize
        ensures { result ≡ output_limit self }
    {
        match self {
            Version::One => 8,
            Version::Two => 64,
        }
    }
}

/// What a run is given: how many workers, how many bytes each may hold, how often a file is read
/// before it counts as hot, how the next job is chosen, and the version of its language.
#[derive(Clone, Copy, Debug, PartialEq, Eq)]
pub struct Header {
    pub workers: u8,
    pub capacity: u64,
    pub hot: u32,
    pub order: OrderRule,
    pub version: Version,
}
