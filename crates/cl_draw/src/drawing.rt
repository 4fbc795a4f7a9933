//! The picture of a run.
ghost use Rattle.std.specs.Prelude.{◌≡◌, ◌<◌, ◌≤◌, ◌^◌, ◌*◌, ◌++◌, [], ◌∷◌, length, All, IfOk, OnOk};
ghost use Rattle.std.specs.List.{flat_map, range_with_len};
ghost use Rattle.cl_model.specs.Validity.{IsValid};
ghost use Rattle.cl_picture.specs.{declared.window.TheConstants.MOST_WINDOW, Pieces.print, Window.IsPictureWindow};
ghost use Rattle.cl_runs.specs.{Legal.IsLegal, Run.Run, SystemOf.system_of};
ghost use Rattle.cl_draw.specs.{Picture.{core_head, chains_head, heads, row_name_line, row_ground_line, name_lines, task_name, chain_name, row_names, by_cores, task_elements, chain_elements, picture, AreReactions, IsPictureOf}, Inner.{Heights.ArePlaces, Drawings.IsDrawing}};

use crate::chain_lines::{Look, put_chain};
use crate::places::{Places, places_of};
use crate::reactions::longest_reaction;
use crate::room::room_of;
use crate::row_lines::put_row;
use crate::rows::{Row, rows_of};
use crate::stops::Reaction;
use crate::task_run::TaskRun;
use cl_model::{List, Name, ValidModel};
use cl_picture::{Piece, Window, put_axis, put_begin, put_end, put_line};
use cl_run_data::RunData;
use cl_text::Text;
use cl_time::NoMemory;
use std::alloc::Global;

/// What is drawn in a window: the rows of the tasks, the longest reactions of the chains, and the
/// heights at which all of it stands.
#[derive(Drop)]
struct Drawing {
    window: Window,
    places: Places,
    rows: List<Row>,
    reactions: List<Option<Reaction>>,
}

/// Draws the ticks `from..to` of a run as SVG: a row for each task, grouped by core, with a band
/// for each job and bars for what the task executes, and a row for each chain with its longest
/// reaction in the run.
///
/// The run is legal for the model. `NoMemory` comes where there is no memory for what is drawn or
/// for the text; it leaves nothing. The room of the text is taken once, before any of it is
/// written: for a run of at most 1,000,000,000 ticks, and a model whose names are of the name
/// grammar, it is enough (`pictures_are_short`). It takes a time proportional to the jobs and
/// stretches of the run and, for each chain, to the stretches of the run and, for each of its
/// groups, to the jobs of the group's task and the stretches of its core.
pub fn draw(
    alloc: Global,
    model: &ValidModel,
    run: &RunData,
    from: u64,
    to: u64,
) -> Result<Text, NoMemory>
    requires legal { IsLegal (system_of model.now) run.now }
    requires ordered { from < to }
    requires limited { to ≤ MOST_WINDOW }
    requires within { to ≤ run.now.table.ticks }
    ensures { IfOk result (IsPictureOf model.now run.now from to) }
{
    let drawing = drawing_of(alloc, model, run, Window { from, to })?;
    let room = room_of(model, drawing.rows.as_slice());
    let mut text = Text::with_room(alloc, room)?;
    put_picture(alloc, &mut text, model, run, &drawing)?;
    Ok(text)
}

/// Finds what is drawn of a run in a window.
fn drawing_of(
    alloc: Global,
    model: &ValidModel,
    run: &RunData,
    window: Window,
) -> Result<Drawing, NoMemory>
    requires legal { IsLegal (system_of model.now) run.now }
    requires window { IsPictureWindow window }
    ensures window { IfOk result (λ drawing. drawing.window ≡ window) }
    ensures drawing { IfOk result (IsDrawing model.now run.now) }
{
    Ok(Drawing {
        window,
        places: places_of(alloc, model)?,
        rows: rows_of(alloc, model, run, window)?,
        reactions: reactions_of(alloc, model, run)?,
    })
}

/// Finds the longest reaction of each chain in file order, where there is one.
fn reactions_of(
    alloc: Global,
    model: &ValidModel,
    run: &RunData,
) -> Result<List<Option<Reaction>>, NoMemory>
    requires { IsLegal (system_of model.now) run.now }
    ensures count { IfOk result (λ reactions. length reactions ≡ length model.now.chains) }
    ensures reactions { IfOk result (AreReactions model.now run.now) }
    ensures valid { IsValid model.now }
{
    let mut reactions = List::new(alloc);
    for chain in 0..model.chains() {
        reactions.push(longest_reaction(alloc, model, run, chain)?)?;
    }
    Ok(reactions)
}

/// Puts the picture.
fn put_picture(
    alloc: Global,
    text: &mut Text,
    model: &ValidModel,
    run: &RunData,
    drawing: &Drawing,
) -> Result<(), NoMemory>
    requires legal { IsLegal (system_of model.now) run.now }
    requires drawing { IsDrawing model.now run.now drawing.now }
    ensures { OnOk result (text.new ≡ text.old
        ++ print (picture model.now run.now drawing.now.window drawing.now.rows drawing.now.reactions)) }
{
    let bottom = drawing.places.bottom(model);
    put_begin(text, drawing.window, run.table().ticks, bottom + 460)?;
    put_heads(text, model, &drawing.places)?;
    put_names(text, model, &drawing.places)?;
    put_axis(text, drawing.window, bottom)?;
    put_rows(alloc, text, model, run, drawing)?;
    put_chains(text, model, drawing)?;
    put_end(text, bottom)
}

/// Puts the heads of the cores and of the chains.
fn put_heads(text: &mut Text, model: &ValidModel, places: &Places) -> Result<(), NoMemory>
    requires { ArePlaces model.now places.now }
    ensures { OnOk result (text.new ≡ text.old ++ print (heads model.now)) }
{
    for core in 0..model.cores() {
        put_core_head(text, model, places, core)?;
    }
    put_chains_head(text, model, places)
}

/// Puts the head of a core.
fn put_core_head(
    text: &mut Text,
    model: &ValidModel,
    places: &Places,
    core: u32,
) -> Result<(), NoMemory>
    requires places { ArePlaces model.now places.now }
    requires within { core < length model.now.cores }
    ensures { OnOk result (text.new ≡ text.old ++ print (core_head model.now core ∷ [])) }
{
    put_line(
        text,
        &[
            Piece::Fixed(b"<text class=\"h\" x=\"160\" y=\""),
            Piece::Number(places.head(model, core) + 260),
            Piece::Fixed(b"\">"),
            Piece::Name(model.core(core).name.as_slice()),
            Piece::Fixed(b"</text>"),
        ],
    )
}

/// Puts the head of the chains, if the model has a chain.
fn put_chains_head(text: &mut Text, model: &ValidModel, places: &Places) -> Result<(), NoMemory>
    requires { ArePlaces model.now places.now }
    ensures { OnOk result
        (text.new ≡ text.old ++ print (chains_head model.now (length model.now.chains))) }
{
    if model.chains() == 0 {
        return Ok(());
    }
    put_line(
        text,
        &[
            Piece::Fixed(b"<text class=\"h\" x=\"160\" y=\""),
            Piece::Number(places.head(model, model.cores()) + 260),
            Piece::Fixed(b"\">longest reactions</text>"),
        ],
    )
}

/// Puts the names and the backgrounds of all rows.
fn put_names(text: &mut Text, model: &ValidModel, places: &Places) -> Result<(), NoMemory>
    requires { ArePlaces model.now places.now }
    ensures { OnOk result (text.new ≡ text.old ++ print (row_names model.now)) }
{
    put_task_names(text, model, places)?;
    put_chain_names(text, model, places)
}

/// Puts the names and the backgrounds of the rows of all tasks, core by core.
fn put_task_names(text: &mut Text, model: &ValidModel, places: &Places) -> Result<(), NoMemory>
    requires { ArePlaces model.now places.now }
    ensures { OnOk result
        (text.new ≡ text.old ++ print (by_cores model.now (task_name model.now))) }
{
    for core in 0..model.cores() {
        put_core_names(text, model, places, model.tasks_of_core(core))?;
    }
    Ok(())
}

/// Puts the names and the backgrounds of the rows of some tasks.
fn put_core_names(
    text: &mut Text,
    model: &ValidModel,
    places: &Places,
    tasks: &[u32],
) -> Result<(), NoMemory>
    requires places { ArePlaces model.now places.now }
    requires known { All (λ task. task < length model.now.tasks) tasks.now }
    ensures { OnOk result
        (text.new ≡ text.old ++ print (flat_map (task_name model.now) tasks.now)) }
{
    for task in tasks {
        put_task_name(text, model, places, *task)?;
    }
    Ok(())
}

/// Puts the name and the background of the row of a task.
fn put_task_name(
    text: &mut Text,
    model: &ValidModel,
    places: &Places,
    task: u32,
) -> Result<(), NoMemory>
    requires places { ArePlaces model.now places.now }
    requires within { task < length model.now.tasks }
    ensures { OnOk result (text.new ≡ text.old ++ print (task_name model.now task)) }
{
    put_name(text, places.row(model, task), &model.task(task).name)
}

/// Puts the names and the backgrounds of the rows of all chains.
fn put_chain_names(text: &mut Text, model: &ValidModel, places: &Places) -> Result<(), NoMemory>
    requires { ArePlaces model.now places.now }
    ensures { OnOk result (text.new ≡ text.old
        ++ print (flat_map (chain_name model.now) (range_with_len 0 (length model.now.chains)))) }
{
    for chain in 0..model.chains() {
        put_chain_name(text, model, places, chain)?;
    }
    Ok(())
}

/// Puts the name and the background of the row of a chain.
fn put_chain_name(
    text: &mut Text,
    model: &ValidModel,
    places: &Places,
    chain: u32,
) -> Result<(), NoMemory>
    requires places { ArePlaces model.now places.now }
    requires within { chain < length model.now.chains }
    ensures { OnOk result (text.new ≡ text.old ++ print (chain_name model.now chain)) }
{
    put_name(
        text,
        places.chain_row(model, chain),
        &model.chain(chain).name,
    )
}

/// Puts the name and the background of a row that begins at the height `y`.
fn put_name(text: &mut Text, y: u64, name: &Name) -> Result<(), NoMemory>
    requires { y ≤ 3 * 10 ^ 12 }
    ensures { OnOk result (text.new ≡ text.old ++ print (name_lines y name.now)) }
{
    put_name_line(text, y, name)?;
    put_ground(text, y)
}

/// Puts the name of a row.
fn put_name_line(text: &mut Text, y: u64, name: &Name) -> Result<(), NoMemory>
    requires { y ≤ 3 * 10 ^ 12 }
    ensures { OnOk result (text.new ≡ text.old ++ print (row_name_line y name.now ∷ [])) }
{
    put_line(
        text,
        &[
            Piece::Fixed(b"<text class=\"n\" x=\"300\" y=\""),
            Piece::Number(y + 230),
            Piece::Fixed(b"\">"),
            Piece::Name(name.as_slice()),
            Piece::Fixed(b"</text>"),
        ],
    )
}

/// Puts the background of a row.
fn put_ground(text: &mut Text, y: u64) -> Result<(), NoMemory>
    requires { y ≤ 3 * 10 ^ 12 }
    ensures { OnOk result (text.new ≡ text.old ++ print (row_ground_line y ∷ [])) }
{
    put_line(
        text,
        &[
            Piece::Fixed(b"<rect class=\"s\" x=\"2000\" y=\""),
            Piece::Number(y + 20),
            Piece::Fixed(b"\" width=\"9600\" height=\"360\"/>"),
        ],
    )
}

/// Puts the rows of all tasks, core by core.
fn put_rows(
    alloc: Global,
    text: &mut Text,
    model: &ValidModel,
    run: &RunData,
    drawing: &Drawing,
) -> Result<(), NoMemory>
    requires legal { IsLegal (system_of model.now) run.now }
    requires drawing { IsDrawing model.now run.now drawing.now }
    ensures { OnOk result (text.new ≡ text.old
        ++ print (by_cores model.now (task_elements model.now run.now drawing.now.window drawing.now.rows))) }
{
    for core in 0..model.cores() {
        put_core_rows(alloc, text, model, run, drawing, model.tasks_of_core(core))?;
    }
    Ok(())
}

/// Puts the rows of some tasks.
fn put_core_rows(
    alloc: Global,
    text: &mut Text,
    model: &ValidModel,
    run: &RunData,
    drawing: &Drawing,
    tasks: &[u32],
) -> Result<(), NoMemory>
    requires legal { IsLegal (system_of model.now) run.now }
    requires drawing { IsDrawing model.now run.now drawing.now }
    requires known { All (λ task. task < length model.now.tasks) tasks.now }
    ensures { OnOk result (text.new ≡ text.old
        ++ print (flat_map (task_elements model.now run.now drawing.now.window drawing.now.rows) tasks.now)) }
{
    for task in tasks {
        put_task_row(alloc, text, model, run, drawing, *task)?;
    }
    Ok(())
}

/// Puts the row of a task.
fn put_task_row(
    alloc: Global,
    text: &mut Text,
    model: &ValidModel,
    run: &RunData,
    drawing: &Drawing,
    task: u32,
) -> Result<(), NoMemory>
    requires legal { IsLegal (system_of model.now) run.now }
    requires drawing { IsDrawing model.now run.now drawing.now }
    requires known { task < length model.now.tasks }
    ensures { OnOk result (text.new ≡ text.old
        ++ print (task_elements model.now run.now drawing.now.window drawing.now.rows task)) }
{
    let of = TaskRun { model, run, task };
    let y = drawing.places.row(model, task);
    let row = &drawing.rows.as_slice()[task as usize];
    put_row(alloc, text, drawing.window, of, y, row)
}

/// Puts the rows of all chains.
fn put_chains(text: &mut Text, model: &ValidModel, drawing: &Drawing) -> Result<(), NoMemory>
    requires { (run : Run) × IsDrawing model.now run drawing.now }
    ensures { OnOk result (text.new ≡ text.old
        ++ print (flat_map (chain_elements model.now drawing.now.window drawing.now.reactions) (range_with_len 0 (length model.now.chains)))) }
{
    for chain in 0..model.chains() {
        put_chain_row(text, model, drawing, chain)?;
    }
    Ok(())
}

/// Puts the row of a chain.
fn put_chain_row(
    text: &mut Text,
    model: &ValidModel,
    drawing: &Drawing,
    chain: u32,
) -> Result<(), NoMemory>
    requires drawing { (run : Run) × IsDrawing model.now run drawing.now }
    requires within { chain < length model.now.chains }
    ensures { OnOk result (text.new ≡ text.old
        ++ print (chain_elements model.now drawing.now.window drawing.now.reactions chain)) }
{
    let look = Look {
        window: drawing.window,
        colour: u64::from(chain) % 4,
        y: drawing.places.chain_row(model, chain),
    };
    let reaction = &drawing.reactions.as_slice()[chain as usize];
    put_chain(
        text,
        model,
        &drawing.places,
        look,
        &model.chain(chain).name,
        reaction,
    )
}
