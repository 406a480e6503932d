use refusals::Refusal;

/// A line of a script that says something.
#[derive(Debug, Drop)]
pub struct ScriptLine {
    /// The number of the line, counted from 1; lines that say nothing count too.
    pub number: u64,
    /// The line, without its newline.
    pub text: String,
}

/// The lines of a script that say something, in order, up to the first line that is refused.
#[derive(Debug, Drop)]
pub struct Script {
    /// The lines.
    pub lines: Vec<ScriptLine>,
    /// The refusal of the line behind them, where one is refused.
    pub refusal: Option<Refusal>,
}

/// Why a script was not read up to a line that is refused, or up to its end.
#[derive(Clone, Copy, Debug, PartialEq, Eq)]
pub enum ScriptFault {
    /// The source failed.
    Source,
    /// There is not enough memory.
    Memory,
}
