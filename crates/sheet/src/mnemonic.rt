//! The words that begin an instruction: how each is spelled, and how many operands it has.
ghost use Rattle.std.specs.Prelude.{◌≡◌};

/// A word by the instruction that it begins.
#[derive(Clone, Copy, Debug, PartialEq, Eq)]
pub enum Mnemonic {
    Set,
    Proc,
    Load,
    Store,
    Add,
    Sub,
    Less,
    Jump,
    Zero,
    Push,
    Pop,
    Print,
    Call,
    Tail,
    CallCc,
    CallOnce,
    Forget,
    DynamicWind,
    Return,
    Stop,
}

/// All words, in the order of the definition `vocabulary`: `spelling` serves both ways, where a match on bytes would spell each word again.
const VOCABULARY: [Mnemonic; 20] = [
    Mnemonic::Set,
    Mnemonic::Proc,
    Mnemonic::Load,
    Mnemonic::Store,
    Mnemonic::Add,
    Mnemonic::Sub,
    Mnemonic::Less,
    Mnemonic::Jump,
    Mnemonic::Zero,
    Mnemonic::Push,
    Mnemonic::Pop,
    Mnemonic::Print,
    Mnemonic::Call,
    Mnemonic::Tail,
    Mnemonic::CallCc,
    Mnemonic::CallOnce,
    Mnemonic::Forget,
    Mnemonic::DynamicWind,
    Mnemonic::Return,
    Mnemonic::Stop,
];

impl Mnemonic {
    ghost use Rattle.sheet.specs.Words.{spelling as spellings, arity as arities, mnemonic as mnemonics};

    /// How a word is spelled.
    pub fn spelling(self) -> &'static [u8]
        ensures { result.now ≡ spellings self }
    {
        match self {
            Mnemonic::Set => b"set",
            Mnemonic::Proc => b"proc",
            Mnemonic::Load => b"load",
            Mnemonic::Store => b"store",
            Mnemonic::Add => b"add",
            Mnemonic::Sub => b"sub",
            Mnemonic::Less => b"less",
            Mnemonic::Jump => b"jump",
            Mnemonic::Zero => b"zero",
            Mnemonic::Push => b"push",
            Mnemonic::Pop => b"pop",
            Mnemonic::Print => b"print",
            Mnemonic::Call => b"call",
            Mnemonic::Tail => b"tail",
            Mnemonic::CallCc => b"cc",
            Mnemonic::CallOnce => b"cc1",
            Mnemonic::Forget => b"forget",
            Mnemonic::DynamicWind => b"wind",
            Mnemonic::Return => b"ret",
            Mnemonic::Stop => b"stop",
        }
    }

    /// How many operands a word has.
    pub fn arity(self) -> usize
        ensures { result ≡ arities self }
    {
        match self {
            Mnemonic::Return | Mnemonic::Stop => 0,
            Mnemonic::Jump
            | Mnemonic::Push
            | Mnemonic::Pop
            | Mnemonic::Print
            | Mnemonic::Call
            | Mnemonic::Tail
            | Mnemonic::CallCc
            | Mnemonic::CallOnce
            | Mnemonic::Forget => 1,
            Mnemonic::Set | Mnemonic::Proc | Mnemonic::Load | Mnemonic::Store | Mnemonic::Zero => 2,
            Mnemonic::Add | Mnemonic::Sub | Mnemonic::Less | Mnemonic::DynamicWind => 3,
        }
    }

    /// The word that is spelled so, if there is one.
    pub fn from_word(word: &[u8]) -> Option<Self>
        ensures { result ≡ mnemonics word.now }
    {
        VOCABULARY.iter().find(|m| word == m.spelling()).copied()
    }
}
