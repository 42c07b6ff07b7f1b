//! The program's run over files and a sink in memory.
ghost use Rattle.std.specs.Prelude.{◌<◌, ◌-◌, ◌^◌};

use fp_measure::{DeclaredSource, MeasureSource, SizeSource};
use fp_outside::{MemFiles, MemSink};
use fp_run::run;
use fp_theory::Theory;
use std::alloc::{AllocError, Global};
use std::process::Abort;
use std::test::Fail;

const USAGE: &[u8] = b"usage: funpack run [--full] [--workers N] FILE...\n";

const TT: &[u8] = b"definition tt = {(l (bool) (b 0))}";

const TT_LINE: &[u8] =
    b"definition tt_def: (s (h) (a (a (c eq (fun (fun (bool) (bool)) (fun (fun (bool) (bool)) (bool)))) (c tt (fun (bool) (bool)))) (l (bool) (b 0))))\n";

fn words_of(alloc: Global, texts: &[&str]) -> Result<Vec<String>, AllocError> {
    let mut words = Vec::new(alloc);
    for text in texts {
        words.push(String::from_str(alloc, text)?)?;
    }
    Ok(words)
}

// Runs the files on a new theory, with sizes and then declared measures.
fn run_files(
    alloc: Global,
    words: &[String],
    files: &mut MemFiles,
    sink: &mut MemSink,
) -> Result<u8, AllocError>
    requires files { files.old.failures < 2 ^ 64 - 1 }
    requires sink { sink.old.failures < 2 ^ 64 - 1 }
{
    let mut theory = Theory::new(alloc)?;
    let mut sources: Vec<Box<dyn MeasureSource + Send + Sync>> = Vec::new(alloc);
    sources.push(Box::new(alloc, SizeSource::new(alloc))?)?;
    sources.push(Box::new(alloc, DeclaredSource::new(alloc))?)?;
    Ok(run(alloc, words, files, sink, &mut theory, sources))
}

// Which calls fail, the room of the sink, and what must come of it.
#[derive(Clone, Copy)]
struct Row<'a> {
    words: &'a [&'a str],
    bytes: &'a [u8],
    file_call: u64,
    sink_call: u64,
    room: usize,
    status: u8,
    written: &'a [u8],
}

fn try_row(rt: &impl Abort, alloc: Global, row: Row<'_>) -> Result<(), AllocError> {
    let words = words_of(alloc, row.words)?;
    let mut files = MemFiles::new(alloc);
    files.add("a.hol", row.bytes)?;
    files.fail_at(row.file_call);
    let mut sink = MemSink::with_room(alloc, row.room)?;
    sink.fail_at(row.sink_call);
    assert_eq!(rt;
        run_files(alloc, &words, &mut files, &mut sink)?,
        row.status
    );
    assert_eq!(rt; sink.written(), row.written);
    Ok(())
}

// Runs the file without faults.
fn try_file(
    rt: &impl Abort,
    alloc: Global,
    bytes: &[u8],
    status: u8,
    written: &[u8],
) -> Result<(), AllocError> {
    try_row(
        rt,
        alloc,
        Row {
            words: &["run", "--full", "a.hol"],
            bytes,
            file_call: 0,
            sink_call: 0,
            room: 1000,
            status,
            written,
        },
    )
}

#[test]
fn accepted_files(rt: HostRuntime) -> Result<(), Fail> {
    let alloc = rt.alloc();
    try_file(&rt, alloc, TT, 0, TT_LINE)?;
    try_file(&rt, alloc, b"", 0, b"")?;
    try_file(
        &rt,
        alloc,
        b"definition\ttt={ ( l(bool)(b\r0) )\n} ",
        0,
        TT_LINE,
    )?;
    Ok(())
}

// A lemma whose third line is bad, after one that is proved.
const BAD_LINE: &[u8] = b"lemma t_ok: \"(x::'a) = x\" proof refl \"x\"; end
lemma bad: \"T\" proof refl \"T\"; assume \"F\"; eq_mp 1 2; end
";

// A type of one value.
const YES: &[u8] =
    b"lemma ex_T: \"(%(x::bool). x) T\" proof truth; beta \"(%(x::bool). x) T\"; sym 2; eq_mp 3 1; end
typedef yes abs to_yes rep of_yes by ex_T
";

const YES_LINES: &[u8] =
    b"theorem ex_T: |- (%a. a) T\ntypedef yes_abs_rep: |- to_yes (of_yes a) = a\ntypedef yes_rep_abs: |- (%a. a) r = (of_yes (to_yes r) = r)\n";

// A theorem whose variable isn't in the left side of what it states.
const UNBOUND_RULE: &[u8] =
    b"lemma r: \"x = x --> T = T\" proof refl \"T\"; disch \"(x::'a) = x\" 1; end
simp r";

const UNBOUND_RULE_LINES: &[u8] =
    b"theorem r: |- x = x --> T = T\nrefused a.hol at 70: NotRuleShape\n";

// A measure that isn't closed, of a type of one value that is named as numbers are.
const OPEN_MEASURE: &[u8] =
    b"lemma ex_T: \"(%(x::bool). x) T\" proof truth; beta \"(%(x::bool). x) T\"; sym 2; eq_mp 3 1; end
typedef nat abs to_nat rep of_nat by ex_T
measure [nat] \"m\"";

const OPEN_MEASURE_LINES: &[u8] =
    b"theorem ex_T: |- (%a. a) T\ntypedef nat_abs_rep: |- to_nat (of_nat a) = a\ntypedef nat_rep_abs: |- (%a. a) r = (of_nat (to_nat r) = r)\nrefused a.hol at 135: NotMeasure\n";

// The short form, where the words don't ask for the full one.
#[test]
fn short_lines(rt: HostRuntime) -> Result<(), Fail> {
    let alloc = rt.alloc();
    let rows: [(&[u8], u8, &[u8]); 9] = [
        (TT, 0, b"definition tt_def: |- tt = (%a. a)\n"),
        (b"", 0, b""),
        (YES, 0, YES_LINES),
        (
            b"definition c = \"T\" simp c_def cong c_def",
            1,
            b"definition c_def: |- c = T\nsimp c_def\nrefused a.hol at 30: NotRuleShape\n",
        ),
        (
            BAD_LINE,
            1,
            b"theorem t_ok: |- x = x\nrefused a.hol at 46: BadLine 3 Differ\n",
        ),
        (
            b"definition one = \"%x. y\"",
            1,
            b"refused a.hol at 0: NotClosed y\n",
        ),
        (
            b"theory Foo imports Main begin",
            1,
            b"refused a.hol at 0: Syntax\n",
        ),
        (UNBOUND_RULE, 1, UNBOUND_RULE_LINES),
        (OPEN_MEASURE, 1, OPEN_MEASURE_LINES),
    ];
    for (bytes, status, written) in rows {
        try_row(
            &rt,
            alloc,
            Row {
                words: &["run", "a.hol"],
                bytes,
                file_call: 0,
                sink_call: 0,
                room: 1000,
                status,
                written,
            },
        )?;
    }
    Ok(())
}

#[test]
fn refused_definitions(rt: HostRuntime) -> Result<(), Fail> {
    let alloc = rt.alloc();
    let rows: [(&[u8], &[u8]); 9] = [
        (
            b"definition T = {(c F (bool))}",
            b"refused a.hol at 0: NameTaken T\n",
        ),
        (
            b"definition c = {(c c (bool))}",
            b"refused a.hol at 15: UnknownName c\n",
        ),
        (
            b"definition c = {(c T (ind))}",
            b"refused a.hol at 15: Clash\n",
        ),
        (
            b"definition c = {(l (bool (bool)) (b 0))}",
            b"refused a.hol at 15: BadArity bool\n",
        ),
        (b"definition c = {(b 0)}", b"refused a.hol at 15: Clash\n"),
        (
            b"definition c = {(a (c T (bool)) (c F (bool)))}",
            b"refused a.hol at 15: Clash\n",
        ),
        (
            b"definition c = {(v x (bool))}",
            b"refused a.hol at 0: NotClosed x\n",
        ),
        (
            b"definition c = {(a (l (fun 'a 'a) (c T (bool))) (l 'a (b 0)))}",
            b"refused a.hol at 0: HiddenType 'a\n",
        ),
        (
            b" definition c = {(a (l 'b (c T (bool))) (c select (fun (fun 'b (bool)) 'b)))}",
            b"refused a.hol at 16: Clash\n",
        ),
    ];
    for (bytes, line) in rows {
        try_file(&rt, alloc, bytes, 1, line)?;
    }
    Ok(())
}

#[test]
fn refusals_in_order(rt: HostRuntime) -> Result<(), Fail> {
    let alloc = rt.alloc();
    let rows: [(&[u8], &[u8]); 5] = [
        (
            b"definition T = {(c other (bool))}",
            b"refused a.hol at 0: NameTaken T\n",
        ),
        (
            b"definition c = {(a (c other (bool)) (b 0))}",
            b"refused a.hol at 15: UnknownName other\n",
        ),
        (
            b"definition c = {(a (v x (bool)) (v y (bool)))}",
            b"refused a.hol at 15: Clash\n",
        ),
        (
            b"definition c = {(a (l (fun 'a 'a) (v x (bool))) (l 'a (b 0)))}",
            b"refused a.hol at 0: NotClosed x\n",
        ),
        (
            b"definition c = {(c c (bool))} definition c = {",
            b"refused a.hol at 45: OpenQuote\n",
        ),
    ];
    for (bytes, line) in rows {
        try_file(&rt, alloc, bytes, 1, line)?;
    }
    Ok(())
}

// Written terms, and what a type and a lemma are made of.
#[test]
fn refused_commands(rt: HostRuntime) -> Result<(), Fail> {
    let alloc = rt.alloc();
    let rows: [(&[u8], &[u8]); 13] = [
        (
            b"definition c = \"(%x. x) = (%x. x)\"",
            b"refused a.hol at 0: HiddenType 'a\n",
        ),
        (
            b"definition c = \"T /\\ y\"",
            b"refused a.hol at 0: NotClosed y\n",
        ),
        (
            b"definition c = \"y::(bool,bool) bool\"",
            b"refused a.hol at 31: BadArity bool\n",
        ),
        (b"definition c = \"T T\"", b"refused a.hol at 16: Clash\n"),
        (
            b"lemma n: \"%x. x\" proof end",
            b"refused a.hol at 0: NotBool\n",
        ),
        (
            b"lemma ETA: \"T\" proof end",
            b"refused a.hol at 0: NameTaken ETA\n",
        ),
        (
            b"typedef t abs a rep a by T_def",
            b"refused a.hol at 0: NameTaken a\n",
        ),
        (
            b"typedef t abs a rep r by none",
            b"refused a.hol at 0: NoSuchTheorem none\n",
        ),
        (
            b"typedef t abs a rep r by ETA",
            b"refused a.hol at 0: NotClosed t\n",
        ),
        (b" simp none", b"refused a.hol at 1: NoSuchTheorem none\n"),
        (
            b"constructors bool = T, F",
            b"refused a.hol at 0: LacksLemma bool_exhaust\n",
        ),
        (b"size [bool] \"%x. x\"", b"refused a.hol at 14: Clash\n"),
        (
            b"fun f :: \"bool\" where \"f\"",
            b"refused a.hol at 0: NotClause 1\n",
        ),
    ];
    for (bytes, line) in rows {
        try_file(&rt, alloc, bytes, 1, line)?;
    }
    Ok(())
}

// The line of the first definition stands before the refusal of the second.
#[test]
fn refused_after_a_line(rt: HostRuntime) -> Result<(), Fail> {
    let alloc = rt.alloc();
    try_file(
        &rt,
        alloc,
        b"definition a = {(c T (bool))}\ndefinition a = {(c F (bool))}\ndefinition b = {(c T (bool))}",
        1,
        b"definition a_def: (s (h) (a (a (c eq (fun (bool) (fun (bool) (bool)))) (c a (bool))) (c T (bool))))\nrefused a.hol at 30: NameTaken a\n",
    )?;
    Ok(())
}

#[test]
fn refused_bytes(rt: HostRuntime) -> Result<(), Fail> {
    let alloc = rt.alloc();
    let rows: [(&[u8], &[u8]); 8] = [
        (b"x", b"refused a.hol at 0: Syntax\n"),
        (
            b"definition lemma = {(b 0)}",
            b"refused a.hol at 11: Syntax\n",
        ),
        (b"definitions", b"refused a.hol at 0: Syntax\n"),
        (b"definition c = {(b 00)}", b"refused a.hol at 15: Syntax\n"),
        (
            b"definition c = {(c T (bool)}",
            b"refused a.hol at 15: Syntax\n",
        ),
        (b"definition c => {", b"refused a.hol at 16: OpenQuote\n"),
        (b"definition c = \"$\"", b"refused a.hol at 16: BadByte\n"),
        (
            b"definition c = \"256\"",
            b"refused a.hol at 16: NumberTooLarge\n",
        ),
    ];
    for (bytes, line) in rows {
        try_file(&rt, alloc, bytes, 1, line)?;
    }
    Ok(())
}

#[test]
fn cut_files(rt: HostRuntime) -> Result<(), Fail> {
    let alloc = rt.alloc();
    for cut in 1..TT.len() {
        let (at, kind) = if cut < 10 {
            (0, "Syntax")
        } else if cut < 17 {
            (cut, "Syntax")
        } else {
            (16, "OpenQuote")
        };
        let line = format!(in alloc; "refused a.hol at {at}: {kind}\n")?;
        try_file(&rt, alloc, &TT[..cut], 1, line.as_bytes())?;
    }
    Ok(())
}

fn repeated(alloc: Global, piece: &[u8], count: usize) -> Result<Vec<u8>, AllocError> {
    let mut bytes = Vec::new(alloc);
    for _ in 0..count {
        bytes.extend_from_slice(piece)?;
    }
    Ok(bytes)
}

#[test]
fn limits(rt: HostRuntime) -> Result<(), Fail> {
    let alloc = rt.alloc();
    let mut deep = repeated(alloc, b"definition c = {", 1)?;
    deep.extend_from_slice(&repeated(alloc, b"(l (bool) ", 201)?)?;
    deep.extend_from_slice(b"(b 0)")?;
    deep.extend_from_slice(&repeated(alloc, b")", 201)?)?;
    deep.extend_from_slice(b"}")?;
    try_file(&rt, alloc, &deep, 1, b"refused a.hol at 2009: TooDeep\n")?;
    let mut name = repeated(alloc, b"definition ", 1)?;
    name.extend_from_slice(&repeated(alloc, b"n", 65)?)?;
    try_file(&rt, alloc, &name, 1, b"refused a.hol at 11: NameTooLong\n")?;
    let long = repeated(alloc, b" ", 4194305)?;
    try_file(&rt, alloc, &long, 1, b"refused a.hol at 4194304: TooLong\n")?;
    let whole = repeated(alloc, b" ", 4194304)?;
    try_file(&rt, alloc, &whole, 0, b"")?;
    Ok(())
}

// The limit of bytes is one for all files.
#[test]
fn limit_of_files(rt: HostRuntime) -> Result<(), Fail> {
    let alloc = rt.alloc();
    let words = words_of(alloc, &["run", "a.hol", "b.hol"])?;
    let most = repeated(alloc, b" ", 4194300)?;
    let mut files = MemFiles::new(alloc);
    files.add("a.hol", &most)?;
    files.add("b.hol", b"# abc")?;
    let mut sink = MemSink::with_room(alloc, 1000)?;
    assert_eq!(rt; run_files(alloc, &words, &mut files, &mut sink)?, 1);
    let line: &[u8] = b"refused b.hol at 4: TooLong\n";
    assert_eq!(rt; sink.written(), line);
    Ok(())
}

#[test]
fn faults(rt: HostRuntime) -> Result<(), Fail> {
    let alloc = rt.alloc();
    let row = Row {
        words: &["run", "--full", "a.hol"],
        bytes: TT,
        file_call: 0,
        sink_call: 0,
        room: 5,
        status: 4,
        written: b"defin",
    };
    try_row(&rt, alloc, row)?;
    try_row(
        &rt,
        alloc,
        Row {
            sink_call: 1,
            room: 1000,
            written: b"",
            ..row
        },
    )?;
    let unread = Row {
        status: 3,
        room: 1000,
        written: b"",
        ..row
    };
    try_row(
        &rt,
        alloc,
        Row {
            file_call: 2,
            ..unread
        },
    )?;
    try_row(
        &rt,
        alloc,
        Row {
            words: &["run", "--full", "b.hol"],
            ..unread
        },
    )?;
    Ok(())
}

#[test]
fn malformed_words(rt: HostRuntime) -> Result<(), Fail> {
    let alloc = rt.alloc();
    let rows: [&[&str]; 8] = [
        &[],
        &["run"],
        &["run", "--full"],
        &["run", ""],
        &["run", "--full", "--full"],
        &["run", "--full", ""],
        &["run", "a.hol", "--full"],
        &["gen", "--full", "a.hol"],
    ];
    for words in rows {
        try_row(
            &rt,
            alloc,
            Row {
                words,
                bytes: TT,
                file_call: 1,
                sink_call: 0,
                room: 1000,
                status: 2,
                written: USAGE,
            },
        )?;
    }
    Ok(())
}

// The later file knows what the earlier one defined; after a refusal no file is opened.
#[test]
fn several_files(rt: HostRuntime) -> Result<(), Fail> {
    let alloc = rt.alloc();
    let rows: [(&[&str], u8, &[u8]); 4] = [
        (
            &["run", "a.hol", "b.hol"],
            0,
            b"definition t_def: |- t = T\ndefinition u_def: |- u = t\n",
        ),
        (
            &["run", "b.hol", "a.hol", "missing.hol"],
            1,
            b"refused b.hol at 0: NotClosed t\n",
        ),
        (
            &["run", "c.hol", "missing.hol"],
            1,
            b"refused c.hol at 0: NotClause 1\n",
        ),
        (
            &["run", "a.hol", "missing.hol"],
            3,
            b"definition t_def: |- t = T\n",
        ),
    ];
    for (texts, status, written) in rows {
        let words = words_of(alloc, texts)?;
        let mut files = MemFiles::new(alloc);
        files.add("a.hol", b"definition t = \"T\"")?;
        files.add("b.hol", b"definition u = \"t\"")?;
        files.add("c.hol", b"fun f :: \"bool\" where \"f\"")?;
        let mut sink = MemSink::with_room(alloc, 1000)?;
        assert_eq!(rt; run_files(alloc, &words, &mut files, &mut sink)?, status);
        assert_eq!(rt; sink.written(), written);
    }
    Ok(())
}
