//! What lines need, and what isn't modelled: the rows of which messages are made.

/// Rows of required options: the verbs or objects, the options of which one must stand, and the
/// text, which may speak of the first option. The first row that the line lacks counts.
pub static NEEDS: [(&str, &str, &str); 14] = [
    ("FILE DATASET", "KEYLENGTH", NEEDED),
    (
        "FILE DATASET",
        "RECOVERABLE UNRECOVERABLE",
        "& needs RECOVERABLE or UNRECOVERABLE, on this line",
    ),
    (
        "TDQUEUE",
        "LOGICAL PHYSICAL NONE",
        "& needs LOGICAL, PHYSICAL or NONE, on this line",
    ),
    ("LOAD", "FROM", NEEDED),
    ("ATTACH", "TRANSID", NEEDED),
    (
        "READ WRITE REWRITE DELETE UNLOCK STARTBR RESETBR READNEXT READPREV ENDBR",
        "FILE DATASET",
        NEEDED,
    ),
    ("READ WRITE STARTBR RESETBR", "RIDFLD", NEEDED),
    ("WRITE REWRITE", "FROM", NEEDED),
    (
        "DELETE",
        "RIDFLD",
        "& with KEYLENGTH, GENERIC or NUMREC needs RIDFLD+",
    ),
    ("WRITEQ READQ DELETEQ", "QUEUE", NEEDED),
    ("WRITEQ", "FROM", NEEDED),
    ("WRITEQ", "ITEM", "& with REWRITE needs ITEM+"),
    ("ENQ DEQ", "RESOURCE", NEEDED),
    (
        "ENQ DEQ",
        "LENGTH",
        "& needs LENGTH, the number of bytes of its value, as RESOURCE('PRINTER') LENGTH(7)",
    ),
];

const NEEDED: &str = "& needs $+, on this line";

pub const NO_LINE: &str = "a line begins with DEFINE, LOAD, ATTACH, CLOCK, SHUTDOWN or a task's \
    label of up to 8 letters and digits";

pub const NO_COMMAND: &str =
    "a command is one line, written T1 EXEC CICS .., with its task's label in front";

pub const NO_COMMAND_BUT: &str =
    "a command is one line, written T1 EXEC CICS ..; or did you mean $ in front?";

pub const NO_CICS: &str = "EXEC % isn't modelled, only EXEC CICS";

pub const NO_OPTION: &str = "% is no option of the script (docs/LANGUAGE.md)";

pub const NO_OPTION_BUT: &str = "% is no option of &: did you mean $?";

pub const NO_VERB: &str = "% is no command of the script (docs/LANGUAGE.md)";

pub const NO_VERB_BUT: &str = "% is no command of the script: did you mean $?";

pub const LITERAL_OF: &str = "a literal stands in the parentheses of its option+";

pub const NO_CODE: &str = "an abend's code stands in its option, as ABCODE('%')";

pub const NO_LITERAL: &str = "a literal stands only in the parentheses of an option";

pub const ITEM_NUMBER: &str = "ITEM takes a number beside REWRITE, as ITEM(1)";

pub const NO_PARENTHESES: &str = "$ takes no parentheses";

pub const NAME8_AS: &str = "$ takes a name of 1 to 8 characters in quotes, as $('%')";

pub const NAME4_AS: &str = "$ takes a name of 1 to 4 characters in quotes, as $('%')";

pub const DATA_NAME: &str = "a script has values where a program has data names+";

pub const LENGTH_OF: &str = "LENGTH OF isn't modelled: the number is written out+";

pub const UNCLOSED: &str = "this quote isn't closed: a literal ends with one";

pub const UNCLOSED_VALUE: &str = "the quote in $('.. isn't closed: a literal ends with one+";

/// Options, parted by blanks, and what they take in the examples.
pub static EXAMPLES: [(&str, &str); 13] = [
    ("FILE DATASET", "('ACCT')"),
    ("TSPREFIX", "('R')"),
    ("TDQUEUE QUEUE", "('WORK')"),
    ("KEYLENGTH", "(6)"),
    ("KEYOFFSET", "(0)"),
    ("RECORDSIZE LENGTH", "(80)"),
    ("FROM", "('0001 100')"),
    ("RIDFLD", "('0001')"),
    ("TRANSID", "('MOVE')"),
    ("DTIMOUT", "(30)"),
    ("ITEM", "(1)"),
    ("RESOURCE", "('PRINTER')"),
    ("ABCODE", "('BAL9')"),
];

/// The options of which one is meant by a literal without an option.
pub static OF_LITERALS: [&str; 2] = ["RIDFLD", "FROM"];

/// Words that are no verbs of the script, or none, and what to write instead.
pub static NO_VERBS: [(&str, &str); 17] = [
    ("", "a verb has to stand here: a command is one line"),
    ("END-EXEC", "a verb has to stand here"),
    ("HANDLE IGNORE PUSH POP", "% !: use RESP or NOHANDLE"),
    ("LINK XCTL LOAD", "% !: write the commands of the program"),
    ("START RETRIEVE CANCEL", "% !: begin a task by ATTACH"),
    (
        "DELAY WAIT POST",
        "% !: a line CLOCK 30 sets the clock to 30 seconds",
    ),
    ("ASKTIME FORMATTIME", "% !: leave it out"),
    ("SUSPEND", "% !: the order of the lines is the schedule"),
    (
        "SEND RECEIVE CONVERSE GETMAIN FREEMAIN ASSIGN ADDRESS RELEASE JOURNAL DUMP",
        "% !",
    ),
    ("ROLLBACK", "% is an option: write SYNCPOINT ROLLBACK"),
    ("COMMIT", "% is written SYNCPOINT"),
    ("END", "% is written RETURN, or ENDBR for a browse"),
    ("STOP EXIT", "% is written RETURN"),
    (
        "UPDATE",
        "% is an option: write READ with UPDATE, then REWRITE",
    ),
    (
        "BROWSE",
        "% is written STARTBR, then READNEXT or READPREV, then ENDBR",
    ),
    (
        "SELECT GET FETCH",
        "% is no command of the script: did you mean READ?",
    ),
    (
        "INSERT PUT",
        "% is no command of the script: did you mean WRITE?",
    ),
];

/// Words that are no options of the script, and what to write instead.
pub static NO_OPTIONS: [(&str, &str); 11] = [
    (
        "SET",
        "% isn't modelled: write INTO(AREA) in its place, or nothing",
    ),
    (
        "RECOVERY LOG",
        "no % stands here: a FILE is RECOVERABLE or UNRECOVERABLE, a TDQUEUE LOGICAL or not",
    ),
    (
        "RECOVSTATUS",
        "in place of %(..) write LOGICAL, PHYSICAL or NONE alone",
    ),
    (
        "LOCK EXCLUSIVE",
        "% is no option: READ with UPDATE locks a record, ENQ a value",
    ),
    ("RBA RRN", "% isn't modelled: RIDFLD is a key"),
    (
        "TASK",
        "% isn't modelled: an ENQ lasts to the end of its unit",
    ),
    (
        "TOKEN REQID MAXLIFETIME NUMITEMS SYSID COMMAREA MASSINSERT TRIGGERLEVEL",
        "% isn't modelled: leave it out",
    ),
    ("KEYS", "% is written KEYLENGTH(6) and KEYOFFSET(0)"),
    (
        "FOR WITH",
        "no % stands here: an option stands alone, as UPDATE",
    ),
    (
        "COMMIT",
        "no % stands here: SYNCPOINT and RETURN commit by themselves",
    ),
    (
        "PREV PREVIOUS",
        "% is no option: READPREV reads a file back in a browse",
    ),
];

/// Options that stand elsewhere: the verbs or objects that lack them, and what to write.
pub static ELSEWHERE: [(&str, &str, &str); 7] = [
    (
        "WRITE REWRITE WRITEQ",
        "INTO",
        "& has no option %: what is written stands in FROM",
    ),
    (
        "READ READNEXT READPREV READQ",
        "FROM",
        "& has no option %: what is read comes INTO(AREA)",
    ),
    (
        "TDQUEUE",
        "RECOVERABLE UNRECOVERABLE",
        "& has no option %: write LOGICAL, PHYSICAL or NONE",
    ),
    (
        "RETURN",
        "TRANSID",
        "& % isn't modelled: write SYNCPOINT with this label, or RETURN if it is the last",
    ),
    (
        "REWRITE",
        "RIDFLD",
        "& has no option %: it rewrites the record that READ with UPDATE read",
    ),
    (
        "LOAD",
        "RIDFLD",
        "& has no option %: a file's key stands in FROM",
    ),
    (
        "READ",
        "NEXT",
        "& has no option %: READNEXT reads on in a browse, which STARTBR starts",
    ),
];

/// Words of other languages and products, and the option that stands for them.
pub static MEANT: [(&str, &str); 8] = [
    ("KEY RECKEY", "RIDFLD"),
    ("QNAME", "QUEUE"),
    ("DSNAME DDNAME DSN", "FILE"),
    ("RECORD VALUE VALUES DATA", "FROM"),
    ("TRANSACTION", "TRANSID"),
    ("TIMEOUT", "DTIMOUT"),
    ("NOWAIT", "NOSUSPEND"),
    ("CODE", "ABCODE"),
];

/// Signs that begin no token, and what to do about them. The first row that fits counts.
pub static SIGNS: [(&str, &str); 13] = [
    (".", "a line has no period at its end"),
    (",", "options are parted by blanks, not by commas"),
    ("\"", "a literal stands in single quotes, as 'ACCT'"),
    (
        "_",
        "outside quotes a word has letters, digits and hyphens, no underscore",
    ),
    ("--", OWN_LINE),
    ("-", "no minus stands here: a number is digits alone"),
    ("+", "no plus stands here: a number is digits alone"),
    (";", "no semicolon stands in a line"),
    ("=", "a value stands in parentheses, as LENGTH(80)"),
    (":", "no colon stands in a line"),
    ("/", OWN_LINE),
    ("#", OWN_LINE),
    ("*", OWN_LINE),
];

const OWN_LINE: &str = "a comment is a line of its own, and begins with *";

pub const JOURNAL_LINE: &str =
    "a line of a printed journal is no line of a script: leave out the > in front";

pub const COMMENT: &str = "a comment begins with *";

/// Characters that no line has, and what is told of them behind their bytes.
pub static FOREIGN: [(&str, &str); 9] = [
    (
        "\u{FEFF}",
        " is a mark of byte order: save the file without it, in ASCII",
    ),
    (
        "\u{2018}\u{2019}\u{201A}\u{201B}\u{201C}\u{201D}\u{201E}\u{B4}",
        " is a curly quote: type '",
    ),
    (
        "\u{2010}\u{2011}\u{2012}\u{2013}\u{2014}\u{2212}\u{AD}",
        " is a dash: type -",
    ),
    ("\u{2026}", " is an ellipsis: type .."),
    (
        "\u{A0}\u{2002}\u{2003}\u{2009}\u{202F}\u{3000}",
        " is a blank of another kind: type a blank",
    ),
    (
        "\u{200B}\u{200C}\u{200D}\u{2060}",
        " can't be seen: delete it",
    ),
    (
        "\u{1A}",
        " is Ctrl-Z, an old mark of a file's end: delete it",
    ),
    (
        "\0",
        " is no text: if the file is in UTF-16, save it in ASCII",
    ),
    (
        "\r",
        " is a carriage return: it stands only at a line's end, before LF",
    ),
];

pub const NOT_ASCII: &str = " is no byte of a line, which has printable ASCII and tabs alone";

/// For each character from U+00C0 to U+00FF the letter of ASCII that is most like it, or a blank.
pub const LETTERS: &str = "AAAAAAACEEEEIIIIDNOOOOO OUUUUYTsaaaaaaaceeeeiiiidnooooo ouuuuyty";

/// Characters that no quoted literal has, and their codes in EBCDIC code page 037.
pub static CODES: [(u8, u8); 11] = [
    (b'\t', 0x05),
    (b'!', 0x5A),
    (b'[', 0xBA),
    (b'\\', 0xE0),
    (b']', 0xBB),
    (b'^', 0xB0),
    (b'`', 0x79),
    (b'{', 0xC0),
    (b'|', 0x4F),
    (b'}', 0xD0),
    (b'~', 0xA1),
];

/// What has to stand behind the first word of a line, or in its place.
pub static SECOND: [(&str, &str); 9] = [
    ("SET", "only the clock can be set, as CLOCK 30"),
    (
        "DEFINE",
        "DEFINE defines a FILE, a TDQUEUE, or by TSPREFIX recoverable TS queues: others need no line",
    ),
    ("LOAD", "LOAD loads a record into a FILE or a TDQUEUE"),
    (
        "ATTACH",
        "ATTACH is followed by a label of up to 8 letters and digits, as ATTACH T1",
    ),
    ("SHUTDOWN", "SHUTDOWN is written SHUTDOWN IMMEDIATE"),
    ("WAIT DELAY SLEEP TIME", "CLOCK moves the time, as CLOCK 30"),
    (
        "TASK START BEGIN RUN",
        "ATTACH begins a task, as ATTACH T1 TRANSID('MOVE')",
    ),
    (
        "END STOP EXIT",
        "RETURN ends a task, as T1 EXEC CICS RETURN",
    ),
    ("REM NOTE COMMENT", COMMENT),
];

/// Definition faults by number and a word of the line: the words for the caret, best first, and the
/// message. The first row that fits counts.
pub static DEFINITIONS: [(u64, &str, &str, &str); 7] = [
    (
        1,
        "DEFINE",
        "FILE DATASET TSPREFIX TDQUEUE",
        "this name is defined already",
    ),
    (
        1,
        "LOAD",
        "FROM",
        "a record with this key is loaded already",
    ),
    (
        2,
        "DEFINE",
        "KEYLENGTH",
        "KEYLENGTH is from 1 to 255, and KEYOFFSET plus KEYLENGTH is at most RECORDSIZE",
    ),
    (3, "DEFINE", "RECORDSIZE", "RECORDSIZE is from 1 to 32767"),
    (
        3,
        "TDQUEUE",
        "FROM",
        "a record of a queue has 1 to 32767 bytes",
    ),
    (
        3,
        "LOAD",
        "FROM",
        "the record ends before its key does, or is longer than RECORDSIZE",
    ),
    (
        4,
        "LOAD",
        "FILE DATASET TDQUEUE",
        "it isn't defined: its DEFINE has to stand above, with the same letters, small or capital",
    ),
];
