//! What the program says of itself: which version it is, how it is used, and how each command is.
ghost use Rattle.std.specs.Prelude.{◌≡◌};
ghost use Rattle.command_line.specs.Command.{texts};
ghost use Rattle.jop.specs.Help.{is_help, alone, command_named, question_of, help_text};
ghost use Rattle.jop.specs.Answers.{IsTold};

use outside::{Sink, put_all};

/// The status where standard output failed.
const WRITE_FAULT: u8 = 4;

/// The version of this repository.
const VERSION: &str = "jop 0.10.0\n";

const COMMANDS: &str = "\
jop links Java class files to images for JOP, the Java Optimized Processor, runs them cycle by cycle, and tells how many
cycles a method takes at most.

usage:
  jop link --main NAME CLASSFILE..           links class files to an image
  jop run [OPTION VALUE].. IMAGE             runs an image
  jop trace [--micro] [OPTION VALUE].. IMAGE runs it, and puts a line for each step
  jop profile [OPTION VALUE].. IMAGE BOUNDS  runs it, and puts what the calls of each method took, and its bound
  jop bound --method NAME [OPTION VALUE].. IMAGE BOUNDS
                                             puts a certificate of what a method takes at most
  jop bound --facts FACTS --method NAME [OPTION VALUE].. IMAGE BOUNDS
                                             puts one of calls that keep facts of how often places are visited
  jop bound --all [OPTION VALUE].. IMAGE BOUNDS
                                             puts a line for each method, with its bound or why it has none
  jop bound --shapes --method NAME [OPTION VALUE].. IMAGE BOUNDS
                                             puts the bound of a method in each of 99 shapes of the method cache
  jop report --method NAME [OPTION VALUE].. IMAGE BOUNDS
                                             puts where a method's bound comes from, by lines of the source
  jop plan --rounds R [OPTION VALUE].. TABLE BOUNDS CLASSFILE..
                                             puts what each slot of a cyclic executive takes at most
  jop cycle --rounds R [OPTION VALUE].. TABLE CLASSFILE..
                                             runs a cyclic executive, and says how its slots kept their lengths
  jop check [OPTION VALUE].. IMAGE BOUNDS CERTIFICATE
                                             says whether a certificate shows what a method takes at most
  jop check --facts FACTS [OPTION VALUE].. IMAGE BOUNDS CERTIFICATE
                                             says whether it does of calls that keep facts
  jop loops [--further] IMAGE                puts the bounds of the loops that count
  jop headers IMAGE [LINES]                  puts a text of bounds with the source line of each loop
  jop memory IMAGE BOUNDS SIZES              says how many words a run needs at most
  jop rtl [OPTION VALUE].. IMAGE             puts the machine with an image in it as a circuit in Verilog
  jop work N                                 makes a program of N methods, links, runs and bounds it
  jop asm TEXT                               assembles microcode
  jop COMMAND --help                         how a command is used; so do `jop COMMAND -h` and `jop help COMMAND`
  jop --help, jop -h, jop --version

Every answer is one line on standard error, but of what is put on standard output. The status is 0 where it did what was
asked, 1 where an exception wasn't caught, 2 where something is refused, 3 where the cycles were spent, 4 where a file
or a stream failed, 5 where there was no memory, and 6 where the words can't be read. `usage: word K` names the first
word at which no command can go on, counted from 0. docs/commands.md has all of this with examples.
";

const LINK: &str = "\
jop link --main NAME CLASSFILE..

Links class files of Java 6 to 8 with the class NAME, whose `main` is run, and puts the file of the image on standard
output.

  --main NAME    the class; each `.` of it reads as `/`. It must be given
  CLASSFILE      a class file; the classes are initialised in the order of the words

answers:
  linked classes=C methods=M words=I bytes=B   status 0: the file was written
  link: ..                                     status 2: what refuses the files; docs/refusals.md has what to do
  usage: word K, too big NAME sum=S            status 2
  read fault, write fault                      status 4
  no memory                                    status 5

example:
  $ jop link --main Main examples/controller/classes/*.class > controller.jopi
";

const RUN: &str = "\
jop run [OPTION VALUE].. IMAGE

Runs an image that `link` wrote, or a bare one, from reset until its program returns. Its output goes to standard
output, and its input comes from standard input.

  --cycles N         stops at the first boundary whose clock is at least N, 0 to 2^63 - 1 (1000000000)
  --stack N          words on chip: 256, 512 or 1024 (1024)
  --memory N         words of memory, 16 to 16777216 (262144)
  --blocks N         blocks of the method cache, 1 to 256 (16)
  --block-words N    words of a block, 1 to 1024 (64)
  --read N           cycles that a read waits, 0 to 63 (1)
  --write N          cycles that a write waits, 0 to 63 (2)

answers:
  ended cycles=C hits=H misses=M           status 0
  uncaught NAME cycles=C hits=H misses=M   status 1: nothing caught an object of the class NAME
  spent cycles=C hits=H misses=M           status 3: the run was stopped
  bad image, differs word=K .., link: .., method too long NAME .., memory too small ..   status 2
  usage: word K, too big NAME sum=S        status 2
  read fault, write fault                  status 4
  no memory                                status 5

example:
  $ jop run controller.jopi < examples/controller/samples
";

const TRACE: &str = "\
jop trace [--micro] [OPTION VALUE].. IMAGE

Runs an image as `run` does. On standard output stands a line for each step in place of the bytes that the program puts
out, and a line `write XX` for each byte: the clock, the method, the place, the instruction, frames and operands.

  --micro            a line for each cycle, too: clock, microaddress, A, B, SP and VP
  the options of run: jop run --help

answers: those of run

example:
  $ jop trace controller.jopi < examples/controller/samples > controller.trace
";

const PROFILE: &str = "\
jop profile [OPTION VALUE].. IMAGE BOUNDS

Runs an image as `run` does. On standard output stands a line for each method of which a call has ended in place of the
bytes that the program puts out: `NAME count=C greatest=G total=T misses=X bound=B`: how many calls have ended, the most
cycles that one took, the cycles and the misses of all, callees included, and what `bound` says of it, or `none`.

  --cycles N         stops at the first boundary whose clock is at least N, 0 to 2^63 - 1 (1000000000)
  --stack N          words on chip: 256, 512 or 1024 (1024)
  --memory N         words of memory, 16 to 16777216 (262144)
  --blocks N         blocks of the method cache, 1 to 256 (16)
  --block-words N    words of a block, 1 to 1024 (64)
  --read N           cycles that a read waits, 0 to 63 (1)
  --write N          cycles that a write waits, 0 to 63 (2)
  BOUNDS             a text of lines `NAME PC loop<=N`, a line for each loop

answers: those of run, and
  bad bounds line=N, twice bound line=N    status 2

example:
  $ jop profile controller.jopi examples/controller/controller.bounds < examples/controller/samples
";

const BOUND: &str = "\
jop bound --method NAME [OPTION VALUE].. IMAGE BOUNDS
jop bound --facts FACTS --method NAME [OPTION VALUE].. IMAGE BOUNDS
jop bound --all [OPTION VALUE].. IMAGE BOUNDS
jop bound --shapes --method NAME [OPTION VALUE].. IMAGE BOUNDS

Bounds what a method takes, in cycles, whatever the method cache holds, and puts a certificate of it on standard output.
Its last line is the number. With --all it puts a line for each method with code in place of a certificate:
`NAME bound=N`, `NAME bound=never` where it never returns, or `NAME bound=none` and why there is none. With --shapes it
puts 99 lines `blocks=M block-words=B bound=W`, one for each shape of the cache whose numbers are powers of two: W is a
number, `never`, `too-long` where some code doesn't fit, or `too-large` where a number passes 64 bits.

  --method NAME      the method: its class, a dot, its name and its descriptor, as `app/Main.step(I)I`
  --all              all methods; this or --method must be given
  --shapes           in each shape of the method cache; not with --all, --blocks or --block-words
  --facts FACTS      a text of lines `NAME PC total<=N`, `NAME PC total<=N per PC2`: how often an instruction is visited
                     in a call of the method, or from each entry of the loop at PC2 to the next; the number is of calls
                     that keep them; not with --all or --shapes
  --blocks N         blocks of the method cache, 1 to 256 (16)
  --block-words N    words of a block, 1 to 1024 (64)
  --read N           cycles that a read waits, 0 to 63 (1)
  --write N          cycles that a write waits, 0 to 63 (2)
  BOUNDS             a text of lines `NAME PC loop<=N`, a line for each loop

answers:
  none, and the certificate or the lines   status 0
  bound: no method                         status 2: no method with code has the name
  bound: recursion NAME..                  status 2: these methods call one another in a ring
  bound: irreducible NAME NODE..           status 2: a loop has several entries
  bound: missing bound NAME PC             status 2: the loop whose header stands at PC has no line
  bound: too large NAME                    status 2: a number passes 64 bits
  bad bounds line=N, twice bound line=N    status 2
  bad facts line=N, twice fact line=N, no such fact line=N   status 2
  bad image, differs word=K .., link: .., method too long NAME ..   status 2
  usage: word K, too big NAME sum=S        status 2
  read fault, write fault                  status 4
  no memory                                status 5

example:
  $ jop bound --method 'Mean.step(I)I' controller.jopi examples/controller/controller.bounds > mean.cert
  $ echo 'Mean.step(I)I 39 total<=4 per 30' > mean.facts
  $ jop bound --facts mean.facts --method 'Mean.step(I)I' controller.jopi examples/controller/controller.bounds
  $ jop bound --all controller.jopi examples/controller/controller.bounds
  $ jop bound --shapes --method 'Mean.step(I)I' controller.jopi examples/controller/controller.bounds
";

const REPORT: &str = "\
jop report --method NAME [OPTION VALUE].. IMAGE BOUNDS

Puts where the bound of a method comes from on standard output: `bound=N`; a line for each line of the source on the
dearest way through the method and all that it calls, `FILE:LINE NAME visits=V cycles=C share=P%`, the most cycles
first, or `NAME PC ..` where the class file tells no line; and the lines `loads`, `invoke` and `return`. The cycles of
all lines are the bound. A share is in percent, rounded down. Of a method that never returns it puts `bound=never`.

  --method NAME      the method: its class, a dot, its name and its descriptor; it must be given
  --blocks N         blocks of the method cache, 1 to 256 (16)
  --block-words N    words of a block, 1 to 1024 (64)
  --read N           cycles that a read waits, 0 to 63 (1)
  --write N          cycles that a write waits, 0 to 63 (2)
  BOUNDS             a text of lines `NAME PC loop<=N`, a line for each loop

answers: those of bound, with the lines in place of the certificate

example:
  $ jop report --method 'Mean.step(I)I' controller.jopi examples/controller/controller.bounds
";

const PLAN: &str = "\
jop plan --rounds R [OPTION VALUE].. TABLE BOUNDS CLASSFILE..

Links class files with a cyclic executive, a class that calls the methods of slots in turn, R rounds, and puts a line
for each slot on standard output: `slot I NAME bound=B length=C`, where no bound passes its slot's length.

  --rounds R         how often all slots are called, 1 to 32767; it must be given
  --blocks N         blocks of the method cache, 1 to 256 (16)
  --block-words N    words of a block, 1 to 1024 (64)
  --read N           cycles that a read waits, 0 to 63 (1)
  --write N          cycles that a write waits, 0 to 63 (2)
  TABLE              a text of 1 to 64 lines `slot CLASS.METHOD()V LENGTH`: a static method, and its cycles at most
  BOUNDS             a text of lines `NAME PC loop<=N`, a line for each loop

answers:
  none, and the lines                      status 0
  plan: late I bound=B length=C            status 2: the bound of slot I passes its length, or is never
  plan: slot I ..                          status 2: why slot I has no bound, as bound says it
  bad table line=N, slots N                status 2: the line is no slot; there are N slots, and not 1 to 64
  bad bounds line=N, twice bound line=N    status 2
  link: .., method too long NAME ..        status 2: the executive is the last of the files
  usage: word K, too big NAME sum=S        status 2
  read fault, write fault                  status 4
  no memory                                status 5

example:
  $ jop plan --rounds 12 examples/executive/slots.{table,bounds} examples/{executive,controller}/classes/*.class
";

const CYCLE: &str = "\
jop cycle --rounds R [OPTION VALUE].. TABLE CLASSFILE..

Links class files with a cyclic executive as `plan` does, and runs that as `run` does. In place of hits and misses the
line on standard error has how many calls of slots have ended, how many of them took more cycles than their slot's
length, and by how many cycles the others stayed below: `ended slots=N late=L idle=J cycles=C`.

  --rounds R         how often all slots are called, 1 to 32767; it must be given
  --cycles N         stops at the first boundary whose clock is at least N, 0 to 2^63 - 1 (1000000000)
  --stack N          words on chip: 256, 512 or 1024 (1024)
  --memory N         words of memory, 16 to 16777216 (262144)
  --blocks N         blocks of the method cache, 1 to 256 (16)
  --block-words N    words of a block, 1 to 1024 (64)
  --read N           cycles that a read waits, 0 to 63 (1)
  --write N          cycles that a write waits, 0 to 63 (2)
  TABLE              a text of 1 to 64 lines `slot CLASS.METHOD()V LENGTH`: a static method, and its cycles at most

answers:
  ended slots=N ..                         status 0: the executive returned
  uncaught CLASS slots=N ..                status 1: nothing caught an object of this class
  spent slots=N ..                         status 3: the cycles were spent
  bad table line=N, slots N                status 2: the line is no slot; there are N slots, and not 1 to 64
  link: .., method too long NAME ..        status 2: the executive is the last of the files
  memory too small words=I given=M         status 2
  usage: word K, too big NAME sum=S        status 2
  read fault, write fault                  status 4
  no memory                                status 5

example:
  $ jop cycle --rounds 12 examples/executive/slots.table examples/{executive,controller}/classes/*.class < /dev/null
";

const CHECK: &str = "\
jop check [OPTION VALUE].. IMAGE BOUNDS CERTIFICATE
jop check --facts FACTS [OPTION VALUE].. IMAGE BOUNDS CERTIFICATE

Checks a certificate of what a method takes at most. The options are those with which it was made.

  --facts FACTS      a text of lines `NAME PC total<=N`, `NAME PC total<=N per PC2`, for a certificate with prices
  --blocks N         blocks of the method cache, 1 to 256 (16)
  --block-words N    words of a block, 1 to 1024 (64)
  --read N           cycles that a read waits, 0 to 63 (1)
  --write N          cycles that a write waits, 0 to 63 (2)
  BOUNDS             a text of lines `NAME PC loop<=N`

answers:
  holds NAME N, holds NAME never           status 0: no call that keeps the bounds and returns takes longer; or
                                           none returns
  check: missing NAME, check: member NAME NODE, check: edge NAME NODE NODE, check: exit NAME NODE, check: region NAME
                                           status 2: the first condition that fails
  check: price NAME NODE                   status 2: no fact is given of this price, the first such
  bad bounds line=N, twice bound line=N, bad cert line=N   status 2
  bad facts line=N, twice fact line=N, no such fact line=N   status 2
  bad image, differs word=K .., link: .., method too long NAME ..   status 2
  usage: word K, too big NAME sum=S        status 2
  read fault, write fault                  status 4
  no memory                                status 5

example:
  $ jop check controller.jopi examples/controller/controller.bounds mean.cert
";

const LOOPS: &str = "\
jop loops [--further] IMAGE

Puts a line `NAME PC loop<=N` on standard output for each loop of the image that counts: one that is left by a test of
an int local variable which one instruction steps, where its limit and what it begins with are constants. No run goes
round it more often, so the lines may stand in a text of bounds.

  --further      takes other ints that are known, too: a local variable's into which one int is stored, the length of
                 an array that the method makes or that a field always holds, and what is computed of such

answers:
  none, and the lines                      status 0
  bad image, differs word=K .., link: ..   status 2
  usage: word K, too big NAME sum=S        status 2
  read fault, write fault                  status 4
  no memory                                status 5

example:
  $ jop loops controller.jopi > found.bounds
";

const HEADERS: &str = "\
jop headers IMAGE [LINES]

Puts a text of bounds on standard output: for each loop of the image its source as a remark `# FILE:LINE`, where the
class file tells it, and `NAME PC loop<=N`. N is the least of what `loops` finds and what LINES says. A loop of which
neither tells a number gets `# NAME PC loop<=`: put one in, and take away the `# `.

  LINES          a text of lines `FILE:LINE loop<=N`: each loop whose header is of this line of the source. Lines
                 `NAME PC loop<=N` are taken, too, so that an older text of bounds can be looked through

remarks:
  # NAME irreducible NODE..                a loop of the method has several entries: it can't be bounded

answers:
  none, and the text                       status 0
  bad lines line=N                         status 2: line N is neither of these, empty, nor a remark
  twice lines line=N                       status 2: line N says something of a loop's line or place once more
  no loop FILE:LINE, no loop NAME PC       status 2: a file or a method of the image has no loop there
  bad image, differs word=K .., link: ..   status 2
  usage: word K, too big NAME sum=S        status 2
  read fault, write fault                  status 4
  no memory                                status 5

example:
  $ jop headers controller.jopi > controller.headers
";

const MEMORY: &str = "\
jop memory IMAGE BOUNDS SIZES

Puts `memory stack=X image=I heap=Y` on standard output: the words that the frames of a run take at most, those of the
image, and those of the objects that a run makes at most. For `run` a `--stack` of at least X + 80 is enough (256 hold
176 words of frames, 512 hold 432, 1024 hold 944), and a `--memory` of at least I + Y.

  BOUNDS         a text of lines `NAME PC loop<=N`, a line for each loop that makes objects
  SIZES          a text of lines `NAME PC length<=N`, a line for each array whose length is no constant

answers:
  none, and the line                       status 0
  memory: recursion NAME..                 status 2: these methods call one another in a ring
  memory: irreducible NAME NODE..          status 2: a loop has several entries
  memory: missing bound NAME PC            status 2: the loop makes objects, and has no line
  memory: missing size NAME PC             status 2: the array has no line
  memory: too large NAME                   status 2: the words pass 64 bits
  bad bounds line=N, twice bound line=N, bad sizes line=N, twice size line=N   status 2
  bad image, differs word=K .., link: ..   status 2
  usage: word K, too big NAME sum=S        status 2
  read fault, write fault                  status 4
  no memory                                status 5

example:
  $ : > no.lengths
  $ jop memory controller.jopi examples/controller/controller.bounds no.lengths
";

const RTL: &str = "\
jop rtl [OPTION VALUE].. IMAGE

Puts the machine of these options, with an image in it, on standard output as a circuit: one module of Verilog-2005,
`module jop(clk, in_data, in_valid, in_take, out_data, out_put, halted)`. Its first clock starts it, and each clock
behind that is a cycle of the run that `jop run` makes with the same options.

  --stack N          words on chip: 256, 512 or 1024 (1024)
  --memory N         words of memory, 16 to 16777216 (262144)
  --blocks N         blocks of the method cache, 1 to 256 (16)
  --block-words N    words of a block, 1 to 1024 (64)
  --read N           cycles that a read waits, 0 to 63 (1)
  --write N          cycles that a write waits, 0 to 63 (2)

answers:
  none, and the module                     status 0
  bad image, differs word=K .., link: .., method too long NAME .., memory too small ..   status 2, as of run
  rtl: no circuit                          status 2: the module would have a net that is none
  usage: word K, too big NAME sum=S        status 2
  read fault, write fault                  status 4
  no memory                                status 5

example:
  $ jop rtl --stack 256 --memory 2048 --blocks 8 --block-words 32 controller.jopi > jop.v
";

const WORK: &str = "\
jop work N

Makes a class of N methods, 1 to 1000, links it, runs it and bounds its `main`, and puts one line of what came of it on
standard output. It takes no file.

answers:
  none, and the line                       status 0
  usage: word K                            status 2
  write fault                              status 4
  no memory                                status 5

example:
  $ jop work 10
";

const ASM: &str = "\
jop asm TEXT

Assembles a text of microcode, and puts a line for each of its words on standard output: the address and the word.

answers:
  none, and the lines                      status 0
  asm: line=N KIND                         status 2: line N is the first that breaks a rule
  asm: too long words=N                    status 2: there are more than 2048 words
  usage: word K, too big NAME sum=S        status 2
  read fault, write fault                  status 4
  no memory                                status 5

example:
  $ jop asm examples/machine/microcode.asm > microcode.words
";

/// What is asked of the program itself.
#[derive(Clone, Copy)]
pub enum Question {
    /// Which version it is.
    Version,
    /// How it is used.
    Commands,
    /// How a command is used.
    Link,
    Run,
    Trace,
    Profile,
    Bound,
    Report,
    Plan,
    Cycle,
    Check,
    Loops,
    Headers,
    Memory,
    Rtl,
    Work,
    Asm,
}

/// Whether a word asks for help.
fn is_help(word: &str) -> bool
    ensures { result ≡ is_help word.now }
{
    word == "--help" || word == "-h"
}

/// What a word asks that stands alone.
fn alone(word: &str) -> Option<Question>
    ensures { result ≡ alone word.now }
{
    if is_help(word) {
        Some(Question::Commands)
    } else if word == "--version" {
        Some(Question::Version)
    } else {
        None
    }
}

/// The question about the command that a word names.
fn command_named(word: &str) -> Option<Question>
    ensures { result ≡ command_named word.now }
{
    if word == "link" {
        Some(Question::Link)
    } else if word == "run" {
        Some(Question::Run)
    } else if word == "trace" {
        Some(Question::Trace)
    } else if word == "profile" {
        Some(Question::Profile)
    } else if word == "bound" {
        Some(Question::Bound)
    } else if word == "report" {
        Some(Question::Report)
    } else if word == "plan" {
        Some(Question::Plan)
    } else if word == "cycle" {
        Some(Question::Cycle)
    } else if word == "check" {
        Some(Question::Check)
    } else if word == "loops" {
        Some(Question::Loops)
    } else if word == "headers" {
        Some(Question::Headers)
    } else if word == "memory" {
        Some(Question::Memory)
    } else if word == "rtl" {
        Some(Question::Rtl)
    } else if word == "work" {
        Some(Question::Work)
    } else if word == "asm" {
        Some(Question::Asm)
    } else {
        None
    }
}

/// What the words ask of the program itself, if they do: `--help`, `-h` or `--version` alone, a command before `--help`
/// or `-h`, or a command behind `help`.
pub fn question_of(words: &[&str]) -> Option<Question>
    ensures { result ≡ question_of (texts words.now) }
{
    match words {
        [word] => alone(word),
        [first, second] => {
            if is_help(second) {
                command_named(first)
            } else if *first == "help" {
                command_named(second)
            } else {
                None
            }
        }
        _ => None,
    }
}

/// The text that answers.
fn text_of(question: Question) -> &'static str
    ensures { result.now ≡ help_text question }
{
    match question {
        Question::Version => VERSION,
        Question::Commands => COMMANDS,
        Question::Link => LINK,
        Question::Run => RUN,
        Question::Trace => TRACE,
        Question::Profile => PROFILE,
        Question::Bound => BOUND,
        Question::Report => REPORT,
        Question::Plan => PLAN,
        Question::Cycle => CYCLE,
        Question::Check => CHECK,
        Question::Loops => LOOPS,
        Question::Headers => HEADERS,
        Question::Memory => MEMORY,
        Question::Rtl => RTL,
        Question::Work => WORK,
        Question::Asm => ASM,
    }
}

/// Puts the text that answers on standard output, and gives the status that the process is to end with.
pub fn answer<O: Sink>(out: &mut O, question: Question) -> u8
    ensures { IsTold (help_text question) (O.held out.old) (O.faults out.old) (O.held out.new) (O.faults out.new) result }
{
    match put_all(out, text_of(question).as_bytes()) {
        Ok(()) => 0,
        Err(_) => WRITE_FAULT,
    }
}
