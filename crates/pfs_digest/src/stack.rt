//! The stack of the one pass that makes the lists of values short.
#![tactic(auto)]

ghost use Rattle.std.specs.Prelude.{◌≡◌, ◌≤◌, reverse, length, IsTrue, IsSome, OnOk};
ghost use Rattle.pfs_digest.specs.Reduction as steps;
ghost use Rattle.pfs_digest.specs.Stack as spec;

use crate::NoMemory;
use crate::pieces::{Piece, Shape};

/// Pushes a piece. A run or a pair of brackets that it ends becomes one piece.
#[tactic(auto, unfolding(crate::specs::Stack::pushed))]
pub(crate) fn push(stack: &mut Vec<Piece>, piece: Piece) -> Result<(), NoMemory>
    ensures { OnOk result (reverse stack.new.items ≡ spec.pushed (reverse stack.old.items) piece) }
{
    match piece {
        Piece::One(shape) => put(stack, shape),
        Piece::Close => close(stack),
        _ => Ok(stack.push(piece)?),
    }
}

// Pushes a `)`.
fn close(stack: &mut Vec<Piece>) -> Result<(), NoMemory>
    ensures { OnOk result (reverse stack.new.items
        ≡ spec.closed_by (spec.brackets (reverse stack.old.items)) (reverse stack.old.items)) }
{
    match brackets(stack) {
        Some(shape) => {
            stack.truncate(stack.len() - 2);
            put(stack, shape)
        }
        None => Ok(stack.push(Piece::Close)?),
    }
}

// Pushes the shape once more.
fn put(stack: &mut Vec<Piece>, shape: Shape) -> Result<(), NoMemory>
    ensures { OnOk result (reverse stack.new.items ≡ spec.put shape (reverse stack.old.items)) }
{
    if awaits(stack, shape) {
        stack.truncate(stack.len() - 2);
        Ok(stack.push(Piece::Run(shape))?)
    } else {
        Ok(stack.push(Piece::One(shape))?)
    }
}

// What a `)` makes of the end of the stack.
fn brackets(stack: &[Piece]) -> Option<Shape>
    ensures shape { result ≡ spec.brackets (reverse stack.now) }
    ensures two { IsSome result → 2 ≤ length stack.now }
{
    match stack {
        [.., Piece::Open, Piece::One(Shape::Value)] => Some(Shape::Single),
        [.., Piece::Open, Piece::Run(Shape::Value)] => Some(Shape::Several),
        _ => None,
    }
}

// The stack ends with the shape and a `,`.
fn awaits(stack: &[Piece], shape: Shape) -> bool
    ensures end { result ≡ spec.awaits shape (reverse stack.now) }
    ensures two { IsTrue result → 2 ≤ length stack.now }
{
    match stack {
        [.., piece, Piece::Comma] => is_of(shape, *piece),
        _ => false,
    }
}

// The piece is the shape, once or more often.
fn is_of(shape: Shape, piece: Piece) -> bool
    ensures { result ≡ spec.is_of shape piece }
{
    match piece {
        Piece::One(other) | Piece::Run(other) => same_shape(shape, other),
        _ => false,
    }
}

// The two shapes are one.
fn same_shape(shape: Shape, other: Shape) -> bool
    ensures { result ≡ steps.same_shape shape other }
{
    shape == other
}
