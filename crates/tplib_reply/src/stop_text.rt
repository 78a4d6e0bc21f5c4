//! The text of a stop: its numbers, each behind what it counts.
ghost use Rattle.std.specs.Prelude.{◌≡◌, ◌++◌, ◌≤◌};
ghost use Rattle.trop_io.specs.Faults.{HasCause};
ghost use Rattle.trop_io.specs.Whole.{WritesAll};
ghost use Rattle.tplib_reply.specs.StopTexts.{stop_text, part_text, step_text, steps_text, label_words};

use crate::writing::write_number;
use crate::{Part, Stop};
use trop_io::{Sink, WriteFault, write_all};

// What a number in a stop counts.
#[derive(Clone, Copy)]
pub enum Label {
    Inequalities,
    Polar,
    Rows,
    Lean,
    Pass,
    Point,
    Edge,
    Sum,
    Kept,
}

// A number in a stop, and what it counts.
#[derive(Clone, Copy)]
pub struct Step {
    pub label: Label,
    pub number: u64,
}

fn words_of(label: Label) -> &'static [u8]
    ensures { result.now ≡ label_words label }
{
    match label {
        Label::Inequalities => b" inequalities ",
        Label::Polar => b" polar ",
        Label::Rows => b" rows ",
        Label::Lean => b" lean ",
        Label::Pass => b" pass ",
        Label::Point => b" point ",
        Label::Edge => b" edge ",
        Label::Sum => b" sum ",
        Label::Kept => b" kept ",
    }
}

fn numbered(label: Label, number: u32) -> Step
    ensures { result ≡ record { label = label; number = number } }
{
    Step {
        label,
        number: u64::from(number),
    }
}

// The text of the steps, one after another.
fn write_steps<E: Sink>(steps: &[Step], err: &mut E) -> Result<(), WriteFault>
    ensures bytes { WritesAll (E.bytes err.old) (E.bytes err.new) (steps_text steps.now) result }
    ensures cause { HasCause (E.faults err.old) (E.faults err.new) result }
{
    for step in steps {
        write_number(words_of(step.label), step.number, err)?;
    }
    Ok(())
}

fn write_part<E: Sink>(part: Part, err: &mut E) -> Result<(), WriteFault>
    ensures bytes { WritesAll (E.bytes err.old) (E.bytes err.new) (part_text part) result }
    ensures cause { HasCause (E.faults err.old) (E.faults err.new) result }
{
    match part {
        Part::Edge(edge) => write_steps(&[numbered(Label::Edge, edge)], err),
        Part::Sum(edge) => write_steps(&[numbered(Label::Sum, edge)], err),
        Part::Head => write_all(err, b" head"),
        Part::Polar(coordinate, count) => write_steps(
            &[
                numbered(Label::Polar, coordinate),
                numbered(Label::Rows, count),
            ],
            err,
        ),
        Part::Kept(count) => write_steps(&[numbered(Label::Kept, count)], err),
    }
}

/// Writes the text of the stop, with a blank in front. It takes no memory.
pub fn write_stop<E: Sink>(stop: Stop, err: &mut E) -> Result<(), WriteFault>
    ensures bytes { WritesAll (E.bytes err.old) (E.bytes err.new) (stop_text stop) result }
    ensures cause { HasCause (E.faults err.old) (E.faults err.new) result }
{
    match stop {
        Stop::Rows(count) => write_steps(&[numbered(Label::Inequalities, count)], err),
        Stop::Polar(coordinate, count) => write_steps(
            &[
                numbered(Label::Polar, coordinate),
                numbered(Label::Rows, count),
            ],
            err,
        ),
        Stop::Lean(turn, count) => write_steps(
            &[
                numbered(Label::Lean, turn),
                numbered(Label::Inequalities, count),
            ],
            err,
        ),
        Stop::At(place) => {
            let pass = Step {
                label: Label::Pass,
                number: place.pass,
            };
            write_steps(&[pass, numbered(Label::Point, place.point)], err)?;
            write_part(place.part, err)
        }
        Stop::PointPolar(point, coordinate, count) => write_steps(
            &[
                numbered(Label::Point, point),
                numbered(Label::Polar, coordinate),
                numbered(Label::Rows, count),
            ],
            err,
        ),
    }
}
