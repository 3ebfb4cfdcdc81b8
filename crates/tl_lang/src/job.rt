use crate::checked::Checked;
use crate::conf::Conf;

/// What a job does, apart from the files that it reads and makes.
#[derive(Debug, Drop)]
pub struct JobSpecCore {
    pub program: Checked,
    pub conf: Conf,
    /// How many expressions each output may enter.
    pub fuel: u32,
}
