/// What the words of the command line ask for.
#[derive(Clone, Copy, Debug, PartialEq, Eq)]
pub enum Request {
    /// Run the script of the input on one thread, and print the journal too where asked.
    Alone { journal: bool },
    /// Run it with threads, `crew` of them crew threads, 0 to 8.
    Run { crew: u8, journal: bool },
    /// Print the generated script of `count` jobs, 1 to 100,000; or run it and print its summary.
    Generate { count: u32, seed: u64, run: bool },
    /// Read a journal and print its verdict.
    Check,
    /// Read a journal and print it in format 2.
    Upgrade,
}
