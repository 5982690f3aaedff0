//! The places of the locals that statements declare.

ghost use Rattle.std.specs.Prelude.{◌≡◌, ◌++◌, OnOk};
ghost use Rattle.cilk_types.specs.Places.{places_in, places_in_part, places_in_list};

use cilk_ast::TStmt;
use std::alloc::AllocError;
use word_ops::{Box, List, Pos};

#[tactic(auto, using(crate::proofs::PlaceForms::place_forms))]
/// Adds the places of a statement's locals, in text order.
#[cycle(counting)]
pub fn add_places(places: &mut List<Pos>, s: &TStmt) -> Result<(), AllocError>
    ensures { OnOk result (places.new ≡ places.old ++ places_in s.now) }
{
    match s {
        TStmt::Block(body) => add_all_places(places, body.as_slice()),
        TStmt::Local { pos, .. } => places.add(*pos),
        TStmt::If { yes, no, .. } => {
            add_places(places, yes.get())?;
            add_places_of_part(places, no)
        }
        TStmt::While { body, .. } => add_places(places, body.get()),
        TStmt::For {
            init,
            step,
            body,
            ..
        } => {
            add_places_of_part(places, init)?;
            add_places_of_part(places, step)?;
            add_places(places, body.get())?;
            Ok(())
        }
        TStmt::CilkFor { pos, body, .. } => {
            places.add(*pos)?;
            add_places(places, body.get())
        }
        TStmt::Empty | TStmt::Sync | TStmt::Eval(_) | TStmt::Spawn(_) => Ok(()),
        TStmt::Assign { .. } | TStmt::AddTo { .. } | TStmt::Up { .. } | TStmt::Down { .. } => Ok(
            (),
        ),
        TStmt::Break { .. } | TStmt::Continue { .. } | TStmt::Return { .. } => Ok(()),
    }
}

#[tactic(auto, using(crate::proofs::PlaceForms::place_forms))]
#[cycle(counting)]
fn add_places_of_part(places: &mut List<Pos>, s: &Option<Box<TStmt>>) -> Result<(), AllocError>
    ensures { OnOk result (places.new ≡ places.old ++ places_in_part s.now) }
{
    match s {
        None => Ok(()),
        Some(s) => add_places(places, s.get()),
    }
}

#[cycle(counting)]
fn add_all_places(places: &mut List<Pos>, body: &[TStmt]) -> Result<(), AllocError>
    ensures { OnOk result (places.new ≡ places.old ++ places_in_list body.now) }
{
    for i in 0..body.len() {
        add_places(places, &body[i])?;
    }
    Ok(())
}
