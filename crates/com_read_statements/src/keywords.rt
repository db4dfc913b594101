//! The words that begin statements.

ghost use Rattle.std.specs.Prelude.{◌≡◌};
ghost use Rattle.com_read_statements.specs.Keywords.{has_cells, has_links, local_word_of, object_word_of};
ghost use Rattle.com_read_statements.specs.Keywords.{lane_word_of, keyword_of};

/// What a statement stands in.
#[derive(Clone, Copy, Debug, PartialEq, Eq)]
pub enum Program {
    /// A thread's script.
    Script,
    /// The body of a method.
    Body,
    /// The body of a method of an agile class, which has no links.
    AgileBody,
}

impl Program {
    /// Whether its statements may name cells, and it is left by `leave`.
    pub fn has_cells(self) -> bool
        ensures { result ≡ has_cells self }
    {
        self != Program::Script
    }

    /// Whether its statements may name links.
    pub fn has_links(self) -> bool
        ensures { result ≡ has_links self }
    {
        self == Program::Body
    }
}

/// The statements that change only the frame and the cells.
#[derive(Clone, Copy, Debug, PartialEq, Eq)]
pub enum LocalWord {
    Set,
    Add,
    Sub,
    Less,
    Same,
    Load,
    Store,
    Skip,
    SkipZero,
}

/// The actions on references and packets.
#[derive(Clone, Copy, Debug, PartialEq, Eq)]
pub enum ObjectWord {
    Create,
    Query,
    Copy,
    Release,
    Call,
    Marshal,
    Unmarshal,
    Drop,
    Raw,
    Disconnect,
}

/// The actions on cookies, lanes and apartments.
#[derive(Clone, Copy, Debug, PartialEq, Eq)]
pub enum LaneWord {
    Register,
    Get,
    Revoke,
    Post,
    Quit,
    Leave,
    Init,
    Uninit,
    SetFilter,
    Pump,
}

/// The word that begins a statement.
#[derive(Clone, Copy, Debug, PartialEq, Eq)]
pub enum Keyword {
    Local(LocalWord),
    Object(ObjectWord),
    Lane(LaneWord),
}

// The word of a statement that changes only the frame and the cells. Any other word is none.
fn local_word_of(bytes: &[u8]) -> Option<LocalWord>
    ensures { result ≡ local_word_of bytes.now }
{
    if bytes == b"set".as_slice() {
        Some(LocalWord::Set)
    } else if bytes == b"add".as_slice() {
        Some(LocalWord::Add)
    } else if bytes == b"sub".as_slice() {
        Some(LocalWord::Sub)
    } else if bytes == b"less".as_slice() {
        Some(LocalWord::Less)
    } else if bytes == b"same".as_slice() {
        Some(LocalWord::Same)
    } else if bytes == b"load".as_slice() {
        Some(LocalWord::Load)
    } else if bytes == b"store".as_slice() {
        Some(LocalWord::Store)
    } else if bytes == b"skip".as_slice() {
        Some(LocalWord::Skip)
    } else if bytes == b"skipz".as_slice() {
        Some(LocalWord::SkipZero)
    } else {
        None
    }
}

// The word of an action on references and packets. Any other word is none.
fn object_word_of(bytes: &[u8]) -> Option<ObjectWord>
    ensures { result ≡ object_word_of bytes.now }
{
    if bytes == b"create".as_slice() {
        Some(ObjectWord::Create)
    } else if bytes == b"query".as_slice() {
        Some(ObjectWord::Query)
    } else if bytes == b"copy".as_slice() {
        Some(ObjectWord::Copy)
    } else if bytes == b"release".as_slice() {
        Some(ObjectWord::Release)
    } else if bytes == b"call".as_slice() {
        Some(ObjectWord::Call)
    } else if bytes == b"marshal".as_slice() {
        Some(ObjectWord::Marshal)
    } else if bytes == b"unmarshal".as_slice() {
        Some(ObjectWord::Unmarshal)
    } else if bytes == b"drop".as_slice() {
        Some(ObjectWord::Drop)
    } else if bytes == b"raw".as_slice() {
        Some(ObjectWord::Raw)
    } else if bytes == b"disconnect".as_slice() {
        Some(ObjectWord::Disconnect)
    } else {
        None
    }
}

// The word of an action on cookies, lanes and apartments. Any other word is none.
fn lane_word_of(bytes: &[u8]) -> Option<LaneWord>
    ensures { result ≡ lane_word_of bytes.now }
{
    if bytes == b"register".as_slice() {
        Some(LaneWord::Register)
    } else if bytes == b"get".as_slice() {
        Some(LaneWord::Get)
    } else if bytes == b"revoke".as_slice() {
        Some(LaneWord::Revoke)
    } else if bytes == b"post".as_slice() {
        Some(LaneWord::Post)
    } else if bytes == b"quit".as_slice() {
        Some(LaneWord::Quit)
    } else if bytes == b"leave".as_slice() {
        Some(LaneWord::Leave)
    } else if bytes == b"init".as_slice() {
        Some(LaneWord::Init)
    } else if bytes == b"uninit".as_slice() {
        Some(LaneWord::Uninit)
    } else if bytes == b"setfilter".as_slice() {
        Some(LaneWord::SetFilter)
    } else if bytes == b"pump".as_slice() {
        Some(LaneWord::Pump)
    } else {
        None
    }
}

/// The statement that a word begins.
#[tactic(auto, unfolding(crate::specs::Keywords::keyword_of))]
pub fn keyword_of(bytes: &[u8]) -> Option<Keyword>
    ensures { result ≡ keyword_of bytes.now }
{
    if let Some(word) = object_word_of(bytes) {
        return Some(Keyword::Object(word));
    }
    if let Some(word) = local_word_of(bytes) {
        return Some(Keyword::Local(word));
    }
    if let Some(word) = lane_word_of(bytes) {
        return Some(Keyword::Lane(word));
    }
    None
}
