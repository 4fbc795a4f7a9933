//! What `help` says of each command: its words, what it writes, its statuses and an example.
ghost use Rattle.std.specs.Prelude.{◌≡◌};
ghost use Rattle.cl_help.specs.Topic.{about};

use crate::topic::Topic;

/// Returns what `help` says of a command.
pub fn about(topic: Topic) -> &'static str
    ensures { result.now ≡ about topic }
{
    match topic {
        Topic::Analyse => ANALYSE,
        Topic::Tighten => TIGHTEN,
        Topic::Verify => VERIFY,
        Topic::Explain => EXPLAIN,
        Topic::Witness => WITNESS,
        Topic::Why => WHY,
        Topic::Check => CHECK,
        Topic::Cut => CUT,
        Topic::Order => ORDER,
        Topic::Headroom => HEADROOM,
        Topic::Margin => MARGIN,
        Topic::Migrate => MIGRATE,
        Topic::Edit => EDIT,
        Topic::Apply => APPLY,
        Topic::Simulate => SIMULATE,
        Topic::Replay => REPLAY,
        Topic::Observe => OBSERVE,
        Topic::Draw => DRAW,
        Topic::Generate => GENERATE,
        Topic::Survey => SURVEY,
        Topic::Help => HELP,
        Topic::Version => VERSION,
    }
}

const ANALYSE: &str = "chainlat analyse MODEL\n\
\n\
Writes the report of a model: the response of each task, the bounds and the exact lengths of each\n\
chain, and the verdict of each requirement.\n\
\n\
MODEL is a model file of at most 16777216 bytes.\n\
\n\
Statuses:\n\
0  the report is written\n\
2  the words are no command\n\
3  a file can't be read\n\
4  a file is too long\n\
5  the model is refused\n\
9  the output failed\n\
10 memory ran out\n\
\n\
Example: chainlat analyse model.toml\n";

const TIGHTEN: &str = "chainlat tighten MODEL\n\
\n\
Writes the report of a model by sharp bounds, which know the phases of its tasks, and the delays of\n\
its chains.\n\
\n\
MODEL is a model file of at most 16777216 bytes.\n\
\n\
Statuses:\n\
0  the report is written\n\
2  the words are no command\n\
3  a file can't be read\n\
4  a file is too long\n\
5  the model is refused\n\
9  the output failed\n\
10 memory ran out\n\
\n\
Example: chainlat tighten model.toml\n";

const VERIFY: &str = "chainlat verify MODEL\n\
\n\
Decides each deadline and each requirement: met (proved), broken (a run shows it) or unshown.\n\
\n\
MODEL is a model file of at most 16777216 bytes.\n\
\n\
Statuses:\n\
0  all are met\n\
2  the words are no command\n\
3  a file can't be read\n\
4  a file is too long\n\
5  the model is refused\n\
9  the output failed\n\
10 memory ran out\n\
13 a task is late, or a requirement isn't met or not shown to be\n\
\n\
Example: chainlat verify model.toml\n";

const EXPLAIN: &str = "chainlat explain MODEL\n\
\n\
Writes the loads of the cores, and what the responses and the bounds are the sums of.\n\
\n\
MODEL is a model file of at most 16777216 bytes.\n\
\n\
Statuses:\n\
0  the sums are written\n\
2  the words are no command\n\
3  a file can't be read\n\
4  a file is too long\n\
5  the model is refused\n\
9  the output failed\n\
10 memory ran out\n\
\n\
Example: chainlat explain model.toml\n";

const WITNESS: &str = "chainlat witness MODEL WHAT NAME\n\
\n\
Writes the trace of a run that comes near to a bound.\n\
\n\
MODEL is a model file of at most 16777216 bytes.\n\
WHAT is response (of a task), reaction, age, reduced or delay (of a chain), or requirement; NAME is its name.\n\
\n\
Statuses:\n\
0  the trace is written\n\
2  the words are no command\n\
3  a file can't be read\n\
4  a file is too long\n\
5  the model is refused\n\
8  the run has more than 800000 executions\n\
9  the output failed\n\
10 memory ran out\n\
15 the model has nothing of that name\n\
16 the run has too many ticks\n\
\n\
Example: chainlat witness model.toml reaction chain > near.trace\n";

const WHY: &str = "chainlat why MODEL WHAT NAME\n\
\n\
Writes why a task is answered, or a chain or a requirement bounded, as `verify` says: a worst window,\n\
or the jobs of a walk as long as the bound.\n\
\n\
MODEL is a model file of at most 16777216 bytes.\n\
WHAT is response (of a task), reaction, age, reduced or delay (of a chain), or requirement; NAME is its name.\n\
\n\
Statuses:\n\
0  the reasons are written\n\
2  the words are no command\n\
3  a file can't be read\n\
4  a file is too long\n\
5  the model is refused\n\
9  the output failed\n\
10 memory ran out\n\
15 the model has nothing of that name\n\
\n\
Example: chainlat why model.toml response Task\n";

const CHECK: &str = "chainlat check MODEL [FILE]\n\
\n\
Writes what to mend in a model file that is refused, and at which line and column; or what to know of\n\
a model that is accepted, first what matters most. With FILE it writes what to mend in that, for a\n\
model that is accepted.\n\
\n\
MODEL is a model file of at most 16777216 bytes.\n\
FILE is a list of edits of at most 16777216 bytes, or a trace of at most 268435456 bytes.\n\
\n\
Statuses:\n\
0  the model, and FILE, is accepted\n\
2  the words are no command\n\
3  a file can't be read\n\
4  a file is too long\n\
5  the model is refused\n\
6  the trace is refused, or its run isn't legal\n\
7  an edit is refused, and the line says which\n\
9  the output failed\n\
10 memory ran out\n\
\n\
Example: chainlat check model.toml changes.edits\n";

const CUT: &str = "chainlat cut MODEL\n\
\n\
Writes the best cut of each chain into pieces, and the bound on its reaction that the cut gives.\n\
\n\
MODEL is a model file of at most 16777216 bytes.\n\
\n\
Statuses:\n\
0  the cuts are written\n\
2  the words are no command\n\
3  a file can't be read\n\
4  a file is too long\n\
5  the model is refused\n\
9  the output failed\n\
10 memory ran out\n\
\n\
Example: chainlat cut model.toml\n";

const ORDER: &str = "chainlat order MODEL\n\
\n\
Writes priorities with which no task is late, on every core the first in dictionary order, or the\n\
first core that has none.\n\
\n\
MODEL is a model file of at most 16777216 bytes.\n\
\n\
Statuses:\n\
0  the answer is written\n\
2  the words are no command\n\
3  a file can't be read\n\
4  a file is too long\n\
5  the model is refused\n\
9  the output failed\n\
10 memory ran out\n\
\n\
Example: chainlat order model.toml\n";

const HEADROOM: &str = "chainlat headroom MODEL\n\
\n\
Writes by how many percent all greatest execution times may grow at most until a task is late by\n\
plain bounds.\n\
\n\
MODEL is a model file of at most 16777216 bytes.\n\
\n\
Statuses:\n\
0  the answer is written\n\
2  the words are no command\n\
3  a file can't be read\n\
4  a file is too long\n\
5  the model is refused\n\
9  the output failed\n\
10 memory ran out\n\
\n\
Example: chainlat headroom model.toml\n";

const MARGIN: &str = "chainlat margin MODEL\n\
\n\
Writes how far the greatest execution times may grow, of all tasks and of each alone, until something\n\
breaks that is met now, and what breaks first.\n\
\n\
MODEL is a model file of at most 16777216 bytes.\n\
\n\
Statuses:\n\
0  the margins are written\n\
2  the words are no command\n\
3  a file can't be read\n\
4  a file is too long\n\
5  the model is refused\n\
9  the output failed\n\
10 memory ran out\n\
\n\
Example: chainlat margin model.toml\n";

const MIGRATE: &str = "chainlat migrate MODEL\n\
\n\
Writes the same model as a file of version 2 or 3, in one layout.\n\
\n\
MODEL is a model file of at most 16777216 bytes.\n\
\n\
Statuses:\n\
0  the file is written\n\
2  the words are no command\n\
3  a file can't be read\n\
4  a file is too long\n\
5  the model is refused\n\
9  the output failed\n\
10 memory ran out\n\
\n\
Example: chainlat migrate old.toml > new.toml\n";

const EDIT: &str = "chainlat edit MODEL EDITS\n\
\n\
Makes the edits of a list one after the other, and writes the text of the model as edited so far for\n\
each line `report`, `tighten` or `verify` among them.\n\
\n\
MODEL is a model file of at most 16777216 bytes.\n\
EDITS is a list of edits of at most 16777216 bytes.\n\
\n\
Statuses:\n\
0  each edit is made\n\
2  the words are no command\n\
3  a file can't be read\n\
4  a file is too long\n\
5  the model is refused\n\
7  an edit is refused, and the line says which\n\
9  the output failed\n\
10 memory ran out\n\
\n\
Example: chainlat edit model.toml changes.edits\n";

const APPLY: &str = "chainlat apply MODEL EDITS\n\
\n\
Writes the model after all edits of a list, as a file of version 2 or 3.\n\
\n\
MODEL is a model file of at most 16777216 bytes.\n\
EDITS is a list of edits of at most 16777216 bytes.\n\
\n\
Statuses:\n\
0  the file is written\n\
2  the words are no command\n\
3  a file can't be read\n\
4  a file is too long\n\
5  the model is refused\n\
7  an edit is refused, and the line says which\n\
9  the output failed\n\
10 memory ran out\n\
\n\
Example: chainlat apply model.toml changes.edits > changed.toml\n";

const SIMULATE: &str = "chainlat simulate MODEL TICKS SEED\n\
\n\
Writes the trace of a run of so many ticks. The seed draws it: the same seed gives the same run.\n\
\n\
MODEL is a model file of at most 16777216 bytes.\n\
TICKS is at most 1000000000.\n\
SEED is at most 18446744073709551615.\n\
\n\
Statuses:\n\
0  the trace is written\n\
2  the words are no command\n\
3  a file can't be read\n\
4  a file is too long\n\
5  the model is refused\n\
8  the run has more than 800000 executions\n\
9  the output failed\n\
10 memory ran out\n\
\n\
Example: chainlat simulate model.toml 10000 1 > drawn.trace\n";

const REPLAY: &str = "chainlat replay MODEL TRACE\n\
\n\
Writes the longest job chains of each chain in the run of a trace, beside the bounds.\n\
\n\
MODEL is a model file of at most 16777216 bytes.\n\
TRACE is a trace of at most 268435456 bytes.\n\
\n\
Statuses:\n\
0  the run is legal\n\
2  the words are no command\n\
3  a file can't be read\n\
4  a file is too long\n\
5  the model is refused\n\
6  the trace is refused, or its run isn't legal\n\
9  the output failed\n\
10 memory ran out\n\
\n\
Example: chainlat replay model.toml drawn.trace\n";

const OBSERVE: &str = "chainlat observe MODEL TRACE\n\
\n\
Writes what the run of a trace shows, legal or not: missed deadlines, responses, times, and the longest\n\
job chains of each chain, beside the sharp bounds.\n\
\n\
MODEL is a model file of at most 16777216 bytes.\n\
TRACE is a trace of at most 268435456 bytes.\n\
\n\
Statuses:\n\
0  what is shown is written\n\
2  the words are no command\n\
3  a file can't be read\n\
4  a file is too long\n\
5  the model is refused\n\
6  the trace is refused\n\
9  the output failed\n\
10 memory ran out\n\
\n\
Example: chainlat observe model.toml recorded.trace\n";

const DRAW: &str = "chainlat draw MODEL TRACE FROM TO\n\
\n\
Writes the run of a trace from one tick to another as a picture, an SVG document.\n\
\n\
MODEL is a model file of at most 16777216 bytes.\n\
TRACE is a trace of at most 268435456 bytes.\n\
FROM and TO are ticks of the run, FROM before TO.\n\
\n\
Statuses:\n\
0  the picture is written\n\
2  the words are no command\n\
3  a file can't be read\n\
4  a file is too long\n\
5  the model is refused\n\
6  the trace is refused, or its run isn't legal\n\
9  the output failed\n\
10 memory ran out\n\
14 FROM and TO are no window of the run\n\
\n\
Example: chainlat draw model.toml drawn.trace 0 1000 > drawn.svg\n";

const GENERATE: &str = "chainlat generate SEED TASKS\n\
\n\
Writes a model of so many tasks, drawn by the seed.\n\
\n\
SEED is at most 18446744073709551615.\n\
TASKS is from 1 to 1024.\n\
\n\
Statuses:\n\
0  the model is written\n\
2  the words are no command\n\
9  the output failed\n\
10 memory ran out\n\
\n\
Example: chainlat generate 1 100 > model.toml\n";

const SURVEY: &str = "chainlat survey SEED TASKS\n\
\n\
Writes the sums of what is found of the model that `generate` draws.\n\
\n\
SEED is at most 18446744073709551615.\n\
TASKS is from 1 to 1024.\n\
\n\
Statuses:\n\
0  the sums are written\n\
2  the words are no command\n\
9  the output failed\n\
10 memory ran out\n\
\n\
Example: chainlat survey 1 100\n";

const HELP: &str = "chainlat help [COMMAND]\n\
\n\
Writes what the commands are; or of one the words, what it writes, its statuses and an example.\n\
\n\
Statuses:\n\
0  the text is written\n\
2  the words are no command\n\
9  the output failed\n\
10 memory ran out\n\
\n\
Example: chainlat help verify\n";

const VERSION: &str = "chainlat version\n\
\n\
Writes the version of the program.\n\
\n\
Statuses:\n\
0  the version is written\n\
2  the words are no command\n\
9  the output failed\n\
10 memory ran out\n\
\n\
Example: chainlat version\n";
