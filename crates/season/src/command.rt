//! The words of the command line.

use clap::{Arg, ArgAction, Command};
use std::alloc::{AllocError, Global};

/// The id of the script's file.
pub const FILE: &str = "file";

/// The id of the two files that are compared.
pub const COMPARE: &str = "compare";

const ABOUT: &str = "\
Runs a whole season of one message set from a script, or compares the models of two files";

const COMPARE_HELP: &str = "\
Compare the element declarations of two DTD files: does every message of each sent model fit";

// Behind the options: scripts first, and then what is told of two files.
const DETAILS: &str = "\
The calls of a script are run on one message set, blank at first, and each call
is printed with its answer. A script has one call to a line; empty lines and
lines that begin with # are passed over.

calls of a set that is drawn up, as it is at first:
  declare NUMBER PART..   put a model at a number from 1 to 32; a part is
                          written kind:symbol:low:high in decimal
  withdraw NUMBER         take the model at the number away
  issue                   from now on the set is issued

calls of an issued set:
  compare NUMBER NUMBER   does every message of the first model, which is sent,
                          fit the second, which is expected; if not, which rule
                          of the second is the first that one breaks
  judge NUMBER SYMBOL..   does the message of the symbols fit the model; if not,
                          which rule is the first that it breaks
  recall                  from now on the set is drawn up

calls about a table, at any time:
  table PART..            is it a model; its symbols, whether the empty message
                          fits, its first conflict
  ask QUESTION : PART..   a question about all messages of the model

questions:
  every SET               has every message a symbol of the set, and has every
                          nonempty one; a set is written 0,1 or, if empty, -
  occurs SYMBOL           how often does it occur in a message that has it, at
                          the fewest, and in any message, at the most
  brings SET SET          has every message with a symbol of the first set one
                          of the second
  after SYMBOL SYMBOL     has some message the first symbol after the second

answers of the set:
  granted                 of declare, withdraw, issue, recall
  included, or fits       no rule is broken
  family 3, {0}, 1 to 5   a verdict: the family of the rule, its set or sets, and
                          of family 3 the bounds, * being no upper end
  refused 11, set, place 3     the question that got a no, its layer, its place
  not taken, the set is issued the call belongs to the other state

example:
  declare 1 1:0:0:0 5:0:1:2 1:1:0:0 3:0:0:0
  issue
  judge 1 0 1

A line that is no call ends the script: what stands before it is answered, and
then there is a message and status 1.

Of two files a line tells for each element of SENT what is found: included, or
the first rule of EXPECTED that some message of it breaks; a line each names the
elements that one file alone declares; the last line counts. The status is 0
where every element of SENT is included, 1 where one is not or is not compared,
2 where there is no answer: a file is not read or is refused, memory runs out, or
the answer cannot be written.
";

/// What the program can be asked for: a script, or two files.
pub fn command<'a>(heap: Global) -> Result<Command<'a>, AllocError> {
    let file = Arg::new(heap, FILE).value_name("FILE").help(
        "A script; where there is none, it is read from standard input",
    );
    let compare = Arg::new(heap, COMPARE)
        .long("compare")
        .action(ArgAction::Set)
        .num_args(2)
        .value_names(["SENT", "EXPECTED"].as_slice())
        .help(COMPARE_HELP)
        .conflicts_with(FILE)?;
    Command::new(heap, "season")
        .about(ABOUT)
        .after_help(DETAILS)
        .arg(file)?
        .arg(compare)
}
