// The pieces of a tree of directives, judged one after the other.
ghost use Rattle.std.specs.Prelude.{◌≡◌, [], ◌∷◌, ◌++◌, reverse, Some, IfOk, OnOk};
ghost use Rattle.conf_read.specs.declared.table.Place.TheVariants as place;
ghost use Rattle.conf_read.specs.Walk.{Judges, Steps, walk, listed, noted, inner, outer};
ghost use Rattle.conf_read.specs.Rules.{fault_of};
ghost use Rattle.conf_read.specs.Table.{row_of};

use crate::directive::{Directive, Piece};
use crate::rules::judge;
use crate::table::{Kind, Place, Row};
use crate::{ConfFault, Import};
use njs_text::{List, NoMemory};
use std::alloc::Global;
use std::mem;

/// A block: its place, and the kinds of the directives that it has so far.
#[derive(Drop)]
pub struct Block {
    pub place: Place,
    pub seen: List<Kind>,
}

/// The block that is read, and those around it, the innermost last.
#[derive(Drop)]
pub struct Walk {
    pub here: Block,
    pub around: Vec<Block>,
}

impl Block {
    fn new(alloc: Global, place: Place) -> Block
        ensures { result ≡ record { place = place; seen = [] } }
    {
        Block {
            place,
            seen: List::new(alloc),
        }
    }
}

impl Walk {
    fn new(alloc: Global) -> Walk
        ensures here { result.here ≡ record { place = place.Main; seen = [] } }
        ensures around { result.around.items ≡ [] }
    {
        Walk {
            here: Block::new(alloc, Place::Main),
            around: Vec::new(alloc),
        }
    }

    // Judges a directive, which then counts in its block.
    fn directive(
        &mut self,
        alloc: Global,
        imports: &[Import],
        earlier: &[Piece],
        directive: &Directive,
        opens: bool,
    ) -> Result<Row, ConfFault>
        ensures judges { Judges (fault_of imports.now self.old.here.place self.old.here.seen (listed earlier.now) directive.now opens) result }
        ensures here { OnOk result (self.new.here ≡ noted self.old.here directive.now) }
        ensures around { self.new.around.items ≡ self.old.around.items }
        ensures row { IfOk result (λ row. row_of directive.now.name ≡ Some row) }
    {
        let seen = self.here.seen.as_slice();
        let row = judge(
            alloc,
            imports,
            self.here.place,
            seen,
            earlier,
            directive,
            opens,
        )?;
        self.here.seen.push(row.kind)?;
        Ok(row)
    }

    fn enter(&mut self, alloc: Global, place: Place) -> Result<(), NoMemory>
        ensures here { self.new.here ≡ record { place = place; seen = [] } }
        ensures around { OnOk result (self.new.around.items ≡ self.old.around.items ++ self.old.here ∷ []) }
    {
        let around = mem::replace(&mut self.here, Block::new(alloc, place));
        self.around.push(around)?;
        Ok(())
    }

    fn leave(&mut self)
        ensures here { self.new.here ≡ inner self.old.here (reverse self.old.around.items) }
        ensures around { reverse self.new.around.items ≡ outer (reverse self.old.around.items) }
    {
        if let Some(block) = self.around.pop() {
            self.here = block;
        }
    }

    fn step(
        &mut self,
        alloc: Global,
        imports: &[Import],
        earlier: &[Piece],
        piece: &Piece,
    ) -> Result<(), ConfFault>
        ensures { Steps imports.now (listed earlier.now) piece.now self.old result self.new }
    {
        match piece {
            Piece::Plain(directive) => {
                self.directive(alloc, imports, earlier, directive, false)?;
                Ok(())
            }
            Piece::Open(directive) => {
                let row = self.directive(alloc, imports, earlier, directive, true)?;
                self.enter(alloc, row.block.unwrap_or(Place::Main))?;
                Ok(())
            }
            Piece::Close => {
                self.leave();
                Ok(())
            }
        }
    }
}

/// Judges all pieces in their order: the first rule that fails is answered.
pub fn judge_all(alloc: Global, imports: &[Import], pieces: &[Piece]) -> Result<(), ConfFault>
    ensures { Judges (walk imports.now (record { place = place.Main; seen = [] }) [] [] pieces.now) result }
{
    let mut walk = Walk::new(alloc);
    for (place, piece) in pieces.iter().enumerate() {
        walk.step(alloc, imports, &pieces[..place], piece)?;
    }
    Ok(())
}
