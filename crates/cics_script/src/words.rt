//! The grammar as tables: which word begins which line, and which options each line takes.

ghost use Rattle.std.specs.Prelude.{◌≡◌, ◌||◌, [], ◌∷◌, IfSome, None, map};
ghost use Rattle.std.specs.List.{list_any};
ghost use Rattle.std.specs.Str.{bytes_eq};
ghost use Rattle.cics_script.specs.Tokens.{capital};
ghost use Rattle.cics_script.specs.Words.{lookup, starts, define_objects, load_objects};
ghost use Rattle.cics_script.specs.Words.{commands, queue_words, option_words, option_word};
ghost use Rattle.cics_script.specs.Words.{word_among, same, own_options, options_of_command};
ghost use Rattle.cics_script.specs.Words.{usual_kind, kind_at, kind_in};
ghost use Rattle.cics_script.specs.Words.{excluded_by, excludes};
ghost use lib.Chars.{codes};

use crate::words::OptionWord::{
    AbCode, Auxiliary, Cancel, Dtimout, EndExec, Equal, File, From, Generic, Gteq, Into, Item,
    KeyLength, KeyOffset, Length, Logical, Main, Next, NoDump, NoHandle, NoSuspend, NumRec,
    Physical, Queue, RecordSize, Recoverable, Resource, Resp, Resp2, Rewrite, Ridfld, Rollback,
    TdQueue, Transid, TsPrefix, Unrecoverable, Unrecovered, Update,
};

/// The first word of a line that begins with no label.
#[derive(Clone, Copy)]
pub enum FirstWord {
    Define,
    Load,
    Attach,
    Clock,
    Shutdown,
}

/// What a DEFINE line defines.
#[derive(Clone, Copy)]
pub enum DefineObject {
    File,
    TsPrefix,
    TdQueue,
}

/// What a LOAD line loads.
#[derive(Clone, Copy)]
pub enum LoadObject {
    File,
    TdQueue,
}

/// The verb of a command, with TS or TD if it acts on a queue.
#[derive(Clone, Copy)]
pub enum CommandWord {
    Read,
    Write,
    Rewrite,
    Delete,
    Unlock,
    StartBr,
    ResetBr,
    ReadNext,
    ReadPrev,
    EndBr,
    WriteqTs,
    ReadqTs,
    DeleteqTs,
    WriteqTd,
    ReadqTd,
    DeleteqTd,
    Enq,
    Deq,
    Syncpoint,
    Return,
    Abend,
}

/// What a line is, by which its options are looked up.
#[derive(Clone, Copy)]
pub enum LineForm {
    Define(DefineObject),
    Load(LoadObject),
    Attach,
    Clock,
    Shutdown,
    Command(CommandWord),
}

/// An option of a line. FILE and DATASET are the same option.
#[derive(Clone, Copy, PartialEq)]
pub enum OptionWord {
    File,
    TsPrefix,
    TdQueue,
    KeyLength,
    KeyOffset,
    RecordSize,
    Recoverable,
    Unrecoverable,
    Logical,
    Physical,
    /// The word NONE, of DEFINE TDQUEUE.
    Unrecovered,
    From,
    Transid,
    Dtimout,
    Ridfld,
    Length,
    Into,
    Generic,
    Equal,
    Gteq,
    Update,
    NumRec,
    Queue,
    Item,
    Next,
    Rewrite,
    Main,
    Auxiliary,
    Resource,
    NoSuspend,
    Rollback,
    AbCode,
    Cancel,
    NoDump,
    Resp,
    Resp2,
    NoHandle,
    EndExec,
}

/// What an option takes in parentheses.
#[derive(Clone, Copy)]
pub enum ValueKind {
    /// No parentheses.
    Flag,
    /// Any literal.
    Text,
    /// A quoted literal that is a name of up to eight characters.
    Name8,
    /// A quoted literal that is a name of up to four characters.
    Name4,
    /// A number.
    Number,
    /// Any literal, number or word.
    Area,
    /// No parentheses, and nothing may follow on the line.
    Last,
}

pub static STARTS: [(&str, FirstWord); 5] = [
    ("DEFINE", FirstWord::Define),
    ("LOAD", FirstWord::Load),
    ("ATTACH", FirstWord::Attach),
    ("CLOCK", FirstWord::Clock),
    ("SHUTDOWN", FirstWord::Shutdown),
];

static DEFINE_OBJECTS: [(&str, DefineObject); 4] = [
    ("FILE", DefineObject::File),
    ("DATASET", DefineObject::File),
    ("TSPREFIX", DefineObject::TsPrefix),
    ("TDQUEUE", DefineObject::TdQueue),
];

static LOAD_OBJECTS: [(&str, LoadObject); 3] = [
    ("FILE", LoadObject::File),
    ("DATASET", LoadObject::File),
    ("TDQUEUE", LoadObject::TdQueue),
];

// Frequent verbs come first: a search begins at the first row.
pub static COMMANDS: [(&str, CommandWord); 18] = [
    ("READ", CommandWord::Read),
    ("WRITE", CommandWord::Write),
    ("REWRITE", CommandWord::Rewrite),
    ("DELETE", CommandWord::Delete),
    ("RETURN", CommandWord::Return),
    ("UNLOCK", CommandWord::Unlock),
    ("STARTBR", CommandWord::StartBr),
    ("RESETBR", CommandWord::ResetBr),
    ("READNEXT", CommandWord::ReadNext),
    ("READPREV", CommandWord::ReadPrev),
    ("ENDBR", CommandWord::EndBr),
    ("WRITEQ", CommandWord::WriteqTs),
    ("READQ", CommandWord::ReadqTs),
    ("DELETEQ", CommandWord::DeleteqTs),
    ("ENQ", CommandWord::Enq),
    ("DEQ", CommandWord::Deq),
    ("SYNCPOINT", CommandWord::Syncpoint),
    ("ABEND", CommandWord::Abend),
];

// FILE stands before DATASET: `option_word` returns the first word of an option.
pub static OPTIONS: [(&str, OptionWord); 39] = [
    ("FILE", File),
    ("DATASET", File),
    ("TRANSID", Transid),
    ("DTIMOUT", Dtimout),
    ("TSPREFIX", TsPrefix),
    ("TDQUEUE", TdQueue),
    ("KEYLENGTH", KeyLength),
    ("KEYOFFSET", KeyOffset),
    ("RECORDSIZE", RecordSize),
    ("RECOVERABLE", Recoverable),
    ("UNRECOVERABLE", Unrecoverable),
    ("LOGICAL", Logical),
    ("PHYSICAL", Physical),
    ("NONE", Unrecovered),
    ("FROM", From),
    ("RIDFLD", Ridfld),
    ("LENGTH", Length),
    ("INTO", Into),
    ("GENERIC", Generic),
    ("EQUAL", Equal),
    ("GTEQ", Gteq),
    ("UPDATE", Update),
    ("NUMREC", NumRec),
    ("QUEUE", Queue),
    ("ITEM", Item),
    ("NEXT", Next),
    ("REWRITE", Rewrite),
    ("MAIN", Main),
    ("AUXILIARY", Auxiliary),
    ("RESOURCE", Resource),
    ("NOSUSPEND", NoSuspend),
    ("ROLLBACK", Rollback),
    ("ABCODE", AbCode),
    ("CANCEL", Cancel),
    ("NODUMP", NoDump),
    ("RESP", Resp),
    ("RESP2", Resp2),
    ("NOHANDLE", NoHandle),
    ("END-EXEC", EndExec),
];

/// Returns a letter's capital, and any other byte as it is.
pub fn capital_of(byte: u8) -> u8
    ensures { result ≡ capital byte }
{
    byte.to_ascii_uppercase()
}

/// Returns whether a word, in capitals or small letters, is `name`, which is in capitals.
pub fn is_spelled(word: &[u8], name: &[u8]) -> bool
    ensures { result ≡ bytes_eq (map capital word.now) name.now }
{
    if word.len() != name.len() {
        return false;
    }
    for (i, letter) in word.iter().enumerate() {
        if capital_of(*letter) != name[i] {
            return false;
        }
    }
    true
}

// Returns what a table has for a word, in capitals or small letters.
fn find_row<T: Copy>(rows: &[(&str, T)], word: &[u8]) -> Option<T>
    ensures { result ≡ lookup (map capital word.now) (map (λ row. (row.0.now, row.1)) rows.now) }
{
    for row in rows {
        if is_spelled(word, row.0.as_bytes()) {
            return Some(row.1);
        }
    }
    None
}

/// Returns which line a word begins, or `None` if it may be a label.
pub fn start_of(word: &[u8]) -> Option<FirstWord>
    ensures { result ≡ lookup (map capital word.now) starts }
{
    find_row(&STARTS, word)
}

/// Returns what DEFINE defines if this word follows it.
pub fn define_object(word: &[u8]) -> Option<DefineObject>
    ensures { result ≡ lookup (map capital word.now) define_objects }
{
    find_row(&DEFINE_OBJECTS, word)
}

/// Returns what LOAD loads if this word follows it.
pub fn load_object(word: &[u8]) -> Option<LoadObject>
    ensures { result ≡ lookup (map capital word.now) load_objects }
{
    find_row(&LOAD_OBJECTS, word)
}

/// Returns the command of a verb. For WRITEQ, READQ and DELETEQ it is that of TS.
pub fn command_named(word: &[u8]) -> Option<CommandWord>
    ensures { result ≡ lookup (map capital word.now) commands }
{
    find_row(&COMMANDS, word)
}

/// Returns the command of a verb and the word after it, or `None` if the word isn't TS or TD, or
/// the verb takes neither.
pub fn queue_command(verb: CommandWord, word: &[u8]) -> Option<CommandWord>
    ensures { result ≡ lookup (map capital word.now) (queue_words verb) }
{
    let of_td = td_command(verb)?;
    if is_spelled(word, b"TS") {
        Some(verb)
    } else if is_spelled(word, b"TD") {
        Some(of_td)
    } else {
        None
    }
}

/// Returns the command of a verb and TD, or `None` if the verb takes neither TS nor TD. With TS the
/// command is `verb` itself.
pub fn td_command(verb: CommandWord) -> Option<CommandWord>
    ensures none { result ≡ None → queue_words verb ≡ [] }
    ensures some { IfSome result (λ of_td.
        queue_words verb ≡ (codes "TS", verb) ∷ (codes "TD", of_td) ∷ []) }
{
    match verb {
        CommandWord::WriteqTs => Some(CommandWord::WriteqTd),
        CommandWord::ReadqTs => Some(CommandWord::ReadqTd),
        CommandWord::DeleteqTs => Some(CommandWord::DeleteqTd),
        _ => None,
    }
}

/// Returns the option of a word, whatever the line.
pub fn option_named(word: &[u8]) -> Option<OptionWord>
    ensures { result ≡ lookup (map capital word.now) option_words }
{
    find_row(&OPTIONS, word)
}

// Returns the first word that a table has for an option.
fn find_word(rows: &[(&'static str, OptionWord)], option: OptionWord) -> &'static str
    ensures { result.now ≡ word_among option (map (λ row. (row.0.now, row.1)) rows.now) }
{
    for row in rows {
        if is_same(row.1, option) {
            return row.0;
        }
    }
    ""
}

/// Returns the word of an option, FILE rather than DATASET.
pub fn option_word(option: OptionWord) -> &'static str
    ensures { result.now ≡ option_word option }
{
    find_word(&OPTIONS, option)
}

/// Returns whether two options are the same.
pub fn is_same(first: OptionWord, second: OptionWord) -> bool
    ensures { result ≡ same first second }
{
    first == second
}

// Returns the options of a line, but for those of every command.
fn own_options(form: LineForm) -> &'static [OptionWord]
    ensures { result.now ≡ own_options form }
{
    match form {
        LineForm::Define(DefineObject::File) => &[
            File,
            KeyLength,
            KeyOffset,
            RecordSize,
            Recoverable,
            Unrecoverable,
        ],
        LineForm::Define(DefineObject::TsPrefix) => &[TsPrefix],
        LineForm::Define(DefineObject::TdQueue) => &[TdQueue, Logical, Physical, Unrecovered],
        LineForm::Load(LoadObject::File) => &[File, From],
        LineForm::Load(LoadObject::TdQueue) => &[TdQueue, From],
        LineForm::Attach => &[Transid, Dtimout],
        LineForm::Clock | LineForm::Shutdown => &[],
        LineForm::Command(command) => options_of_command(command),
    }
}

// Returns the options of a command, but for those of every command.
fn options_of_command(command: CommandWord) -> &'static [OptionWord]
    ensures { result.now ≡ options_of_command command }
{
    match command {
        CommandWord::Read => &[
            File, Ridfld, KeyLength, Length, Into, Generic, Equal, Gteq, Update,
        ],
        CommandWord::Write => &[File, Ridfld, From, Length, KeyLength],
        CommandWord::Rewrite => &[File, From, Length],
        CommandWord::Delete => &[File, Ridfld, KeyLength, Generic, NumRec],
        CommandWord::Unlock | CommandWord::EndBr => &[File],
        CommandWord::StartBr | CommandWord::ResetBr => {
            &[File, Ridfld, KeyLength, Generic, Equal, Gteq]
        }
        CommandWord::ReadNext | CommandWord::ReadPrev => &[File, Into, Ridfld, Length],
        CommandWord::WriteqTs => &[
            Queue, From, Length, Item, Rewrite, Main, Auxiliary, NoSuspend,
        ],
        CommandWord::ReadqTs => &[Queue, Into, Length, Item, Next],
        CommandWord::WriteqTd => &[Queue, From, Length],
        CommandWord::ReadqTd => &[Queue, Into, Length, NoSuspend],
        CommandWord::DeleteqTs | CommandWord::DeleteqTd => &[Queue],
        CommandWord::Enq => &[Resource, Length, NoSuspend],
        CommandWord::Deq => &[Resource, Length],
        CommandWord::Syncpoint => &[Rollback],
        CommandWord::Return => &[],
        CommandWord::Abend => &[AbCode, Cancel, NoDump],
    }
}

// Returns whether an option is one of these.
fn is_among(options: &[OptionWord], option: OptionWord) -> bool
    ensures { result ≡ list_any (same option) options.now }
{
    options.iter().any(|one| is_same(option, *one))
}

// Returns what an option takes in most lines that have it.
fn usual_kind(option: OptionWord) -> ValueKind
    ensures { result ≡ usual_kind option }
{
    match option {
        File | TsPrefix | Queue => ValueKind::Name8,
        TdQueue | Transid | AbCode => ValueKind::Name4,
        KeyLength | KeyOffset | RecordSize | Dtimout | Length | Item => ValueKind::Number,
        From | Ridfld | Resource => ValueKind::Text,
        Into | NumRec | Resp | Resp2 => ValueKind::Area,
        EndExec => ValueKind::Last,
        _ => ValueKind::Flag,
    }
}

// Returns what an option takes in a line that has it.
#[inline(always)]
fn kind_at(form: LineForm, option: OptionWord) -> ValueKind
    ensures { result ≡ kind_at form option }
{
    match (form, option) {
        (LineForm::Command(CommandWord::ReadNext | CommandWord::ReadPrev), Ridfld)
        | (LineForm::Command(CommandWord::WriteqTs), Item) => ValueKind::Area,
        (
            LineForm::Command(
                CommandWord::WriteqTd | CommandWord::ReadqTd | CommandWord::DeleteqTd,
            ),
            Queue,
        ) => ValueKind::Name4,
        _ => usual_kind(option),
    }
}

/// Returns what an option of a line takes, or `None` if the line has no such option. Joins the
/// tables `own_options` and `kind_at`, and the options of every command.
#[inline(always)]
pub fn kind_of(form: LineForm, option: OptionWord) -> Option<ValueKind>
    ensures { result ≡ kind_in form option }
{
    let shared: &[OptionWord] = match form {
        LineForm::Command(_) => &[Resp, Resp2, NoHandle, EndExec],
        _ => &[],
    };
    if is_among(own_options(form), option) || is_among(shared, option) {
        Some(kind_at(form, option))
    } else {
        None
    }
}

// Returns the options that a line can't have beside this one.
fn excluded_by(option: OptionWord) -> &'static [OptionWord]
    ensures { result.now ≡ excluded_by option }
{
    match option {
        Recoverable => &[Unrecoverable],
        Unrecoverable => &[Recoverable],
        Logical => &[Physical, Unrecovered],
        Physical => &[Logical, Unrecovered],
        Unrecovered => &[Logical, Physical],
        Equal => &[Gteq],
        Gteq => &[Equal, Update],
        Update => &[Gteq, Generic],
        Generic => &[Update],
        Item => &[Next],
        Next => &[Item],
        Main => &[Auxiliary],
        Auxiliary => &[Main],
        _ => &[],
    }
}

/// Returns whether no line can have both options.
pub fn is_excluded(first: OptionWord, second: OptionWord) -> bool
    ensures { result ≡ excludes first second }
{
    is_among(excluded_by(second), first)
}
