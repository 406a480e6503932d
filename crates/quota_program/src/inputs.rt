use option_words::Tool;

/// What is said on a terminal while the standard input is waited for, of the command that words begin with.
pub fn input_wait(words: &[String]) -> &'static str {
    let tool = match words.first() {
        Some(name) => Tool::named(name.as_str()),
        None => None,
    };
    match tool {
        Some(Tool::Quotacheck) => {
            "reads a listing of inodes from the terminal, up to Ctrl-D; without a line nobody uses anything"
        }
        Some(Tool::Setquota) => {
            "reads lines NAME BSOFT BHARD ISOFT IHARD from the terminal, up to Ctrl-D"
        }
        Some(Tool::Edquota) => "reads a form from the terminal, up to Ctrl-D",
        _ => "reads commands from the terminal, up to Ctrl-D",
    }
}
