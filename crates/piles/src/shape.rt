ghost use Rattle.std.specs.Prelude.{◌<◌, OnOk};
ghost use Rattle.script.specs.Arguments.{octets_left};

use crate::pair::Pair;
use script::arguments::Arguments;
use script::complaint::Complaint;

// The sizes of a slot queue and a packed queue, of which one is hollow: over no octets it holds nothing and has no
// room, so that a tandem of the two is the other one.
#[derive(Clone, Copy, Default)]
pub struct BottomShape {
    pub limit: Option<u32>,
    pub slot_octets: usize,
    pub slot_width: usize,
    pub slot_notes: usize,
    pub packed_octets: usize,
}

// A tandem of two bottoms, of which the far one is hollow where the script names only one.
pub type HalfShape = Pair<BottomShape>;

// A tandem of two halves, of which the far one is hollow where the script names only one.
pub type PileShape = Pair<HalfShape>;

// What a queue's words begin with: quotas, of which the least counts, and then a bottom or a tandem.
enum Head {
    Bottom(BottomShape),
    Tandem(Option<u32>),
}

fn take_slot(arguments: &mut Arguments) -> Result<BottomShape, Complaint> {
    Ok(BottomShape {
        slot_octets: arguments.number("OCTETS of slot")?,
        slot_width: arguments.number("WIDTH of slot")?,
        slot_notes: arguments.number("NOTES of slot")?,
        ..BottomShape::default()
    })
}

fn take_packed(arguments: &mut Arguments) -> Result<BottomShape, Complaint> {
    Ok(BottomShape {
        packed_octets: arguments.number("OCTETS of packed")?,
        ..BottomShape::default()
    })
}

// The limit of a quota over what has this limit, if any: a quota of 0 is taken as 1, and a quota over a quota lets in what
// the lesser of the two lets in.
fn take_quota(arguments: &mut Arguments, limit: Option<u32>) -> Result<u32, Complaint>
    ensures { OnOk result (octets_left arguments.new < octets_left arguments.old) }
{
    let quota = arguments.number::<u32>("Q of quota")?.max(1);
    Ok(limit.map_or(quota, |least| least.min(quota)))
}

fn take_head(arguments: &mut Arguments) -> Result<Head, Complaint> {
    let mut limit = None;
    // It ends, since each word that is read leaves fewer octets of the line.
    loop {
        match arguments.word("a queue")? {
            b"quota" => limit = Some(take_quota(arguments, limit)?),
            b"slot" => {
                return Ok(Head::Bottom(BottomShape {
                    limit,
                    ..take_slot(arguments)?
                }));
            }
            b"packed" => {
                return Ok(Head::Bottom(BottomShape {
                    limit,
                    ..take_packed(arguments)?
                }));
            }
            b"tandem" => return Ok(Head::Tandem(limit)),
            other => return Err(arguments.unknown(other, "slot, packed, quota or tandem")),
        }
    }
}

// A shape that the words of a script describe, to the depth of tandems that it has room for.
trait Described: Sized {
    // The shape of which this bottom is all that is not hollow.
    fn of_bottom(bottom: BottomShape) -> Self;

    // The shape that the next words describe.
    fn take(arguments: &mut Arguments) -> Result<Self, Complaint>;
}

impl Described for BottomShape {
    fn of_bottom(bottom: BottomShape) -> BottomShape {
        bottom
    }

    fn take(arguments: &mut Arguments) -> Result<BottomShape, Complaint> {
        match take_head(arguments)? {
            Head::Bottom(bottom) => Ok(bottom),
            Head::Tandem(_) => Err(arguments.complaint(
                "tandems nest at most two deep here, and this one would be the third",
            )),
        }
    }
}

impl<S: Described + Drop> Described for Pair<S> {
    fn of_bottom(bottom: BottomShape) -> Pair<S> {
        Pair {
            limit: None,
            near: S::of_bottom(bottom),
            far: S::of_bottom(BottomShape::default()),
        }
    }

    fn take(arguments: &mut Arguments) -> Result<Pair<S>, Complaint> {
        match take_head(arguments)? {
            Head::Bottom(bottom) => Ok(Pair::of_bottom(bottom)),
            Head::Tandem(limit) => Ok(Pair {
                limit,
                near: S::take(arguments)?,
                far: S::take(arguments)?,
            }),
        }
    }
}

// The queue that the next words describe: slot, packed, quota over a queue, or tandem of two queues.
pub fn take_pile(arguments: &mut Arguments) -> Result<PileShape, Complaint> {
    PileShape::take(arguments)
}
