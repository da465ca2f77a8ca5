//! The kinds of lines: what each word of one is.

ghost use Rattle.std.specs.Prelude.{◌≡◌};
ghost use Rattle.sd_script.specs.Kinds.{parts_of, text_of};

/// A word that is itself, wherever it stands.
#[derive(Clone, Copy)]
pub enum Fixed {
    Complex,
    Begin,
    Read,
    Write,
    Add,
    Insert,
    Delete,
    Save,
    Back,
    Rollback,
    Commit,
    Ask,
    Give,
    Take,
    Evict,
    Flush,
    Force,
    Check,
    End,
    Fail,
    Fuse,
    Fault,
    All,
    Recover,
    By,
    Join,
    Reopen,
    Where,
    Table,
}

/// What a word of a line is.
#[derive(Clone, Copy)]
pub enum Part {
    Fixed(Fixed),
    /// The instance whose line it is.
    Lead,
    /// An instance of the complex.
    Inst,
    /// An instance that is recovered, which may be any of the eight.
    Failed,
    /// How many instances the complex has.
    Insts,
    /// How many pages it has, or frames an instance.
    Count,
    Page,
    Record,
    /// The name of a transaction that begins.
    Begins,
    /// The name of a transaction that began.
    Begun,
    Mark,
    Amount,
    Value,
    /// The capacity of a slot for the value before it.
    Capacity,
    Mode,
    Pick,
    /// How many device calls pass.
    Calls,
    /// Which device call fails.
    Call,
    /// How many steps of a recovery are done.
    Steps,
}

/// A kind of line.
#[derive(Clone, Copy)]
pub enum LineKind {
    Complex,
    Begin,
    Read,
    Write,
    Add,
    Insert,
    InsertWithCapacity,
    Delete,
    Save,
    Back,
    Rollback,
    Commit,
    Ask,
    Give,
    Take,
    Evict,
    Flush,
    Force,
    CheckBegin,
    CheckEnd,
    Fail,
    Fuse,
    Fault,
    FailAll,
    Recover,
    RecoverInSteps,
    Join,
    Reopen,
    RecoverAll,
    JoinAll,
    Where,
    Table,
}

/// The bytes of a word.
pub(crate) fn text(fixed: Fixed) -> &'static [u8]
    ensures { result.now ≡ text_of fixed }
{
    match fixed {
        Fixed::Complex => b"complex",
        Fixed::Begin => b"begin",
        Fixed::Read => b"read",
        Fixed::Write => b"write",
        Fixed::Add => b"add",
        Fixed::Insert => b"insert",
        Fixed::Delete => b"delete",
        Fixed::Save => b"save",
        Fixed::Back => b"back",
        Fixed::Rollback => b"rollback",
        Fixed::Commit => b"commit",
        Fixed::Ask => b"ask",
        Fixed::Give => b"give",
        Fixed::Take => b"take",
        Fixed::Evict => b"evict",
        Fixed::Flush => b"flush",
        Fixed::Force => b"force",
        Fixed::Check => b"check",
        Fixed::End => b"end",
        Fixed::Fail => b"fail",
        Fixed::Fuse => b"fuse",
        Fixed::Fault => b"fault",
        Fixed::All => b"all",
        Fixed::Recover => b"recover",
        Fixed::By => b"by",
        Fixed::Join => b"join",
        Fixed::Reopen => b"reopen",
        Fixed::Where => b"where",
        Fixed::Table => b"table",
    }
}

/// What the words of a line of this kind are.
pub(crate) fn parts(kind: LineKind) -> &'static [Part]
    ensures { result.now ≡ parts_of kind }
{
    match kind {
        LineKind::Complex => &[
            Part::Fixed(Fixed::Complex),
            Part::Insts,
            Part::Count,
            Part::Count,
        ],
        LineKind::Begin => &[Part::Lead, Part::Fixed(Fixed::Begin), Part::Begins],
        LineKind::Read => &[Part::Fixed(Fixed::Read), Part::Begun, Part::Record],
        LineKind::Write => &[
            Part::Fixed(Fixed::Write),
            Part::Begun,
            Part::Record,
            Part::Value,
        ],
        LineKind::Add => &[
            Part::Fixed(Fixed::Add),
            Part::Begun,
            Part::Record,
            Part::Amount,
        ],
        LineKind::Insert => &[
            Part::Fixed(Fixed::Insert),
            Part::Begun,
            Part::Page,
            Part::Value,
        ],
        LineKind::InsertWithCapacity => &[
            Part::Fixed(Fixed::Insert),
            Part::Begun,
            Part::Page,
            Part::Value,
            Part::Capacity,
        ],
        LineKind::Delete => &[Part::Fixed(Fixed::Delete), Part::Begun, Part::Record],
        LineKind::Save => &[Part::Fixed(Fixed::Save), Part::Begun, Part::Mark],
        LineKind::Back => &[Part::Fixed(Fixed::Back), Part::Begun, Part::Mark],
        LineKind::Rollback => &[Part::Fixed(Fixed::Rollback), Part::Begun],
        LineKind::Commit => &[Part::Fixed(Fixed::Commit), Part::Begun],
        LineKind::Ask => &[Part::Lead, Part::Fixed(Fixed::Ask), Part::Page, Part::Mode],
        LineKind::Give => &[Part::Lead, Part::Fixed(Fixed::Give), Part::Page],
        LineKind::Take => &[Part::Lead, Part::Fixed(Fixed::Take), Part::Page],
        LineKind::Evict => &[Part::Lead, Part::Fixed(Fixed::Evict), Part::Page],
        LineKind::Flush => &[Part::Lead, Part::Fixed(Fixed::Flush), Part::Page],
        LineKind::Force => &[Part::Lead, Part::Fixed(Fixed::Force)],
        LineKind::CheckBegin => &[
            Part::Lead,
            Part::Fixed(Fixed::Check),
            Part::Fixed(Fixed::Begin),
        ],
        LineKind::CheckEnd => &[
            Part::Lead,
            Part::Fixed(Fixed::Check),
            Part::Fixed(Fixed::End),
        ],
        LineKind::Fail => &[Part::Fixed(Fixed::Fail), Part::Inst],
        LineKind::Fuse => &[Part::Fixed(Fixed::Fuse), Part::Calls],
        LineKind::Fault => &[Part::Fixed(Fixed::Fault), Part::Call],
        LineKind::FailAll => &[
            Part::Fixed(Fixed::Fail),
            Part::Fixed(Fixed::All),
            Part::Pick,
        ],
        LineKind::Recover => &[
            Part::Fixed(Fixed::Recover),
            Part::Failed,
            Part::Fixed(Fixed::By),
            Part::Inst,
        ],
        LineKind::RecoverInSteps => &[
            Part::Fixed(Fixed::Recover),
            Part::Failed,
            Part::Fixed(Fixed::By),
            Part::Inst,
            Part::Steps,
        ],
        LineKind::Join => &[Part::Fixed(Fixed::Join), Part::Inst],
        LineKind::Reopen => &[Part::Fixed(Fixed::Reopen)],
        LineKind::RecoverAll => &[Part::Fixed(Fixed::Recover), Part::Fixed(Fixed::All)],
        LineKind::JoinAll => &[Part::Fixed(Fixed::Join), Part::Fixed(Fixed::All)],
        LineKind::Where => &[Part::Fixed(Fixed::Where), Part::Page],
        LineKind::Table => &[Part::Fixed(Fixed::Table)],
    }
}
