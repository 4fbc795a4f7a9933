//! What `help` says of all commands.

/// What the commands are, with their files and numbers and the limits of these, and where to read
/// more.
pub const HELP: &str = "usage: chainlat COMMAND ARGUMENTS\n\
\n\
analyse MODEL               the report: responses, bounds, exact lengths and verdicts\n\
tighten MODEL               responses, bounds and delays that know the phases of tasks\n\
verify MODEL                each deadline and requirement: met (proved), broken (a run shows it) or unshown\n\
explain MODEL               what the responses and the bounds are the sums of\n\
witness MODEL WHAT NAME     the trace of a run near to a bound of what is named\n\
why MODEL WHAT NAME         why what is named is answered or bounded as `verify` says\n\
check MODEL [FILE]          what to mend in a model, or in a list of edits or a trace, or what to know of it\n\
cut MODEL                   the best cuts of the chains\n\
order MODEL                 on every core the first priorities, in dictionary order, with which no task is late\n\
headroom MODEL              how far the greatest execution times may grow by plain bounds\n\
margin MODEL                how far they may grow, of all tasks and of each, and what breaks first\n\
migrate MODEL               the model as a file of version 2 or 3\n\
edit MODEL EDITS            what is found of a model as a list of edits changes it\n\
apply MODEL EDITS           the model after a list of edits, as such a file\n\
simulate MODEL TICKS SEED   the trace of a run, drawn by a seed\n\
replay MODEL TRACE          what is measured in the run of a trace\n\
observe MODEL TRACE         what the run of a trace shows, legal or not, beside the sharp bounds\n\
draw MODEL TRACE FROM TO    the run of a trace from one tick to another, as a picture (SVG)\n\
generate SEED TASKS         a model that is drawn by a seed\n\
survey SEED TASKS           the sums of what is found of such a model\n\
help [COMMAND], version     this text, or more of one command; the version of the program\n\
\n\
WHAT is response (of a task), reaction, age, reduced or delay (of a chain), or requirement.\n\
MODEL, EDITS and TRACE are names of files. MODEL and EDITS have at most 16777216 bytes, TRACE at most 268435456.\n\
TICKS, FROM and TO are at most 1000000000, SEED at most 18446744073709551615, and TASKS is from 1 to 1024.\n\
The answer goes to the standard output. The status is 0 where the command did what it says, 2 where the words are no\n\
command, 3 and 4 where a file can't be read or is too long, 5 where the model is refused, 6 where the trace is, 7 where\n\
an edit is, 8 where a simulation is too large, 9 where the output failed, 10 where memory ran out, 13 where `verify`\n\
finds something that isn't met, 14 where FROM and TO are no window of the run, 15 where the model has nothing of that\n\
NAME, and 16 where the run has too many ticks.\n\
README.md and the pages in docs/ say more.\n";
