ghost use Rattle.std.specs.Prelude.{◌≡◌};
ghost use Rattle.command_answers.specs.Statuses.{status_number};

/// How the program ends. The number of a status is what the program's process exits with.
#[derive(Clone, Copy, Debug, PartialEq, Eq)]
pub enum Status {
    /// What was ordered is done, and what it came to is written whole.
    Done = 0,
    /// `check` refuses the certificate, or can't read it, and says so on the output.
    CertificateRefused = 1,
    /// The words are refused.
    WordsRefused = 2,
    /// The source of the bundle failed.
    InputFailed = 3,
    /// The output or the complaint sink failed.
    OutputFailed = 4,
    /// The bundle is too long, or has no certificate part where `check` wants one.
    BundleRefused = 5,
    /// The source part can't be cut into tokens, or its tokens have no tree.
    TextRefused = 6,
    /// The source part's tree is outside the class of programs.
    ClassRefused = 7,
    /// A limit on a nest, on its size, on a script for VHDL or on the rows of `load` is passed.
    LimitPassed = 8,
    /// The data part is refused.
    DataRefused = 9,
    /// Want of memory.
    NoMemory = 10,
    /// The runtime refuses the words, so that the program makes no call. No call ends so.
    NoWords = 11,
}

impl Status {
    /// The number of this status. No other status has it: `statuses_have_own_numbers`.
    pub fn number(self) -> u8
        ensures { result ≡ status_number self }
    {
        self as u8
    }
}
