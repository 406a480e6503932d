ghost use Rattle.std.specs.Prelude.{◌≡◌};
ghost use Rattle.option_words.specs.Tools.{tool_of};

/// A command, as word 0 names it.
#[derive(Clone, Copy, Debug, PartialEq, Eq)]
pub enum Tool {
    /// Reports on a file.
    Repquota,
    /// Sets limits, grace periods and times.
    Setquota,
    /// Prints limits as a form, and applies such a form.
    Edquota,
    /// Sets the usage from a listing.
    Quotacheck,
    /// Makes a file in another format.
    Convertquota,
    /// Serves files over the network.
    Rquotad,
    /// Runs a list of commands.
    Script,
    /// Makes a listing and a file of it.
    Generate,
}

impl Tool {
    /// The command of a name.
    pub fn named(name: &str) -> Option<Self>
        ensures { result ≡ tool_of name.now }
    {
        match name {
            "repquota" => Some(Tool::Repquota),
            "setquota" => Some(Tool::Setquota),
            "edquota" => Some(Tool::Edquota),
            "quotacheck" => Some(Tool::Quotacheck),
            "convertquota" => Some(Tool::Convertquota),
            "rquotad" => Some(Tool::Rquotad),
            "script" => Some(Tool::Script),
            "generate" => Some(Tool::Generate),
            _ => None,
        }
    }
}
