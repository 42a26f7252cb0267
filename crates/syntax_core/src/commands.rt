ghost use Rattle.std.specs.Prelude.{◌≡◌, ◌++◌, [], ◌∷◌, List};
ghost use Rattle.syntax_core.specs.declared.commands.Head.{Head};
ghost use Rattle.syntax_core.specs.Commands.{head_named, has_end, has_wanted, may_follow};

use sig_core::is_word;

/// The commands of a problem file, by the words that they begin with.
#[derive(Clone, Copy, Debug, PartialEq, Eq)]
pub enum Head {
    SetInfo,
    DeclareTermTypes,
    DefineFunsRec,
    SynthFun,
    Constraint,
    CheckSynth,
}

/// The command that begins with this word.
pub fn head_named(name: &[u8]) -> Option<Head>
    ensures { result ≡ head_named name.now }
{
    if is_word(name, b"set-info") {
        Some(Head::SetInfo)
    } else if is_word(name, b"declare-term-types") {
        Some(Head::DeclareTermTypes)
    } else if is_word(name, b"define-funs-rec") {
        Some(Head::DefineFunsRec)
    } else if is_word(name, b"synth-fun") {
        Some(Head::SynthFun)
    } else if is_word(name, b"constraint") {
        Some(Head::Constraint)
    } else if is_word(name, b"check-synth") {
        Some(Head::CheckSynth)
    } else {
        None
    }
}

/// How far a file has come: what the order of its commands depends on.
///
/// It stands for each list of commands that has a `synth-fun` and a `check-synth` where it says so.
#[derive(Clone, Copy, Debug, PartialEq, Eq)]
pub struct Order {
    has_wanted: bool,
    has_end: bool,
}

impl Order {
    ghost use Rattle.syntax_core.specs.Orders.{StandsFor};

    /// The order before the first command.
    pub fn new() -> Order
        ensures { StandsFor result [] }
    {
        Order {
            has_wanted: false,
            has_end: false,
        }
    }

    /// Whether the command may come now.
    pub fn takes(self, command: Head) -> bool
        ensures { (earlier : List Head) → StandsFor self earlier → result ≡ may_follow earlier command }
    {
        match command {
            Head::SetInfo => !self.has_end,
            Head::DeclareTermTypes | Head::DefineFunsRec | Head::SynthFun => !self.has_wanted,
            Head::Constraint | Head::CheckSynth => self.has_wanted && !self.has_end,
        }
    }

    /// The order after the command.
    pub fn after(self, command: Head) -> Order
        ensures { (earlier : List Head) → StandsFor self earlier → StandsFor result (earlier ++ command ∷ []) }
    {
        Order {
            has_wanted: self.has_wanted || command == Head::SynthFun,
            has_end: self.has_end || command == Head::CheckSynth,
        }
    }

    /// Whether a `check-synth` came.
    pub fn is_over(self) -> bool
        ensures { (earlier : List Head) → StandsFor self earlier → result ≡ has_end earlier }
    {
        self.has_end
    }
}
