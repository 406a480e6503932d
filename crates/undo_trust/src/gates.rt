use file_names::stamp::Node;
use std::alloc::{AllocError, Global};

/// Who opened the gate of an undo file that is open.
#[derive(Clone, Copy, Debug, PartialEq, Eq)]
enum OpenedBy {
    /// A command that was stopped.
    Another,
    /// This one.
    Us,
}

/// What came of a gate that was found open.
#[derive(Clone, Copy, Debug, PartialEq, Eq)]
pub enum GateOutcome {
    /// It is open still, since the command ended before.
    Open,
    /// The file was mended by what the undo file saves, and the gate is closed.
    Mended,
    /// The undo file did not fit the file, which stays as it was, and the gate is closed.
    Unusable,
}

/// The undo file of a file, as far as its gate was open, or this program made it.
#[derive(Drop)]
pub struct Gate {
    file: String,
    undo: String,
    made: Option<Node>,
    open: Option<(Node, OpenedBy)>,
    is_found: bool,
    is_mended: bool,
}

impl Gate {
    /// The name of the file.
    pub fn file(&self) -> &str {
        self.file.as_str()
    }

    /// Where the undo file is, as it may be shown.
    pub fn undo(&self) -> &str {
        self.undo.as_str()
    }

    /// What came of the gate; none where it was not found open.
    pub fn outcome(&self) -> Option<GateOutcome> {
        if !self.is_found {
            None
        } else if matches!(self.open, Some((_, OpenedBy::Another))) {
            Some(GateOutcome::Open)
        } else if self.is_mended {
            Some(GateOutcome::Mended)
        } else {
            Some(GateOutcome::Unusable)
        }
    }
}

/// The undo files whose gates were open since the program began, or that it made, one of each file.
#[derive(Drop)]
pub struct Gates {
    alloc: Global,
    gates: Vec<Gate>,
}

impl Gates {
    /// None was open yet.
    pub fn new(alloc: Global) -> Gates {
        Gates {
            alloc,
            gates: Vec::new(alloc),
        }
    }

    /// All of them.
    pub fn as_slice(&self) -> &[Gate] {
        self.gates.as_slice()
    }

    /// Whether a gate is known to be open: this program opened it, or found it open and believes it.
    pub fn has_open(&self, file: &str, undo: Node) -> bool {
        let known = self.gates.iter().find(|gate| gate.file.as_str() == file);
        known.is_some_and(|gate| gate.open.is_some_and(|(node, _)| node == undo))
    }

    /// Whether a file is about to be mended for the first time by what its undo file saves.
    #[inline(always)]
    pub fn is_unmended(&self, file: &str) -> bool {
        self.gates
            .iter()
            .any(|gate| gate.is_unmended() && gate.file.as_str() == file)
    }

    /// Whether this program made an undo file.
    pub fn has_made(&self, file: &str, undo: Node) -> bool {
        let known = self.gates.iter().find(|gate| gate.file.as_str() == file);
        known.is_some_and(|gate| gate.made == Some(undo))
    }

    /// Notes a gate that was found open, in the undo file that is shown so.
    pub fn note_found(&mut self, file: &str, place: &str, undo: Node) -> Result<(), AllocError> {
        let place = String::from_str(self.alloc, place)?;
        let gate = self.of(file)?;
        if let Some(gate) = gate {
            gate.undo = place;
            gate.open = Some((undo, OpenedBy::Another));
            gate.is_found = true;
            gate.is_mended = false;
        }
        Ok(())
    }

    /// Notes an undo file that this program made.
    pub fn note_made(&mut self, file: &str, undo: Node) -> Result<(), AllocError> {
        let gate = self.of(file)?;
        if let Some(gate) = gate {
            gate.made = Some(undo);
        }
        Ok(())
    }

    /// Notes that this program is about to open a gate.
    pub fn note_ours(&mut self, file: &str, undo: Node) -> Result<(), AllocError> {
        let gate = self.of(file)?;
        if let Some(gate) = gate {
            gate.open = Some((undo, OpenedBy::Us));
        }
        Ok(())
    }

    /// Notes that a file is about to be mended.
    pub fn note_mended(&mut self, file: &str) {
        for gate in &mut self.gates {
            if gate.file.as_str() == file {
                gate.is_mended = true;
            }
        }
    }

    /// Notes that a gate is closed.
    pub fn note_closed(&mut self, file: &str) {
        for gate in &mut self.gates {
            if gate.file.as_str() == file {
                gate.open = None;
            }
        }
    }

    /// What is known of the gate of a file, which gets a place here where it has none.
    fn of(&mut self, file: &str) -> Result<Option<&mut Gate>, AllocError> {
        if !self.gates.iter().any(|gate| gate.file.as_str() == file) {
            let file = String::from_str(self.alloc, file)?;
            self.gates.push(Gate {
                file,
                undo: String::new(self.alloc),
                made: None,
                open: None,
                is_found: false,
                is_mended: false,
            })?;
        }
        Ok(
            self.gates
                .iter_mut()
                .find(|gate| gate.file.as_str() == file),
        )
    }
}

impl Gate {
    /// Whether the gate was found open, and its file was not mended since.
    fn is_unmended(&self) -> bool {
        !self.is_mended && matches!(self.open, Some((_, OpenedBy::Another)))
    }
}
