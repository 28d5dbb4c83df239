ghost use Rattle.std.specs.Prelude.{◌≡◌, ◌-◌, ◌≤◌, [], ◌∷◌, None, min, length, IfOk, OnOk};
ghost use Rattle.wh_world.specs.Bytes.{written, part_at, Torn};
ghost use Rattle.wh_world.specs.Cut.{image_at, cut_of, fill_of, filled, patched, cut_call};
ghost use Rattle.wh_world.specs.Events.{content, last_synced, IsImage};
ghost use Rattle.wh_world.specs.Logged.{events, bytes_written, kept_of, size_of, event_of, Tears};

use crate::logged::Logged;
use crate::mem_disk::overwrite;
use std::alloc::{AllocError, Global};

/// How much there is of the writes since the last sync: of their bytes, in the order of the calls,
/// the first `cut`, and in the place of each byte behind these `fill`, or what was there before.
#[derive(Clone, Copy, Debug)]
pub struct Tear {
    cut: u64,
    fill: Option<u8>,
}

impl Tear {
    /// The tear of a pick. At 0 there is nothing of these writes; from 2 on the picks go through
    /// the 256 fills and none, for each cut in turn.
    pub fn of(pick: u64) -> Tear
        ensures none { pick ≡ 0 → (result.cut ≡ 0) × (result.fill ≡ None) }
        ensures picked { 2 ≤ pick → (result.cut ≡ cut_of pick) × (result.fill ≡ fill_of pick) }
    {
        match pick.checked_sub(2) {
            None => Tear { cut: 0, fill: None },
            Some(place) => Tear {
                cut: place / 257,
                fill: u8::try_from(place % 257).ok(),
            },
        }
    }
}

/// What a crash may leave of the first bytes and of the calls since, where `tear` says how much
/// there is of the writes behind the last sync.
pub fn image_of(
    alloc: Global,
    first: &[u8],
    log: &[Logged],
    pieces: &[u8],
    tear: Tear,
) -> Result<Vec<u8>, AllocError>
    requires { bytes_written log.now ≤ length pieces.now }
    ensures image { IfOk result (λ image.
        IsImage first.now (events [] log.now pieces.now) image.items) }
    ensures cut { IfOk result (λ image.
        image.items ≡ image_at first.now (events [] log.now pieces.now) tear.cut tear.fill) }
    ensures synced { tear.cut ≡ 0 → tear.fill ≡ None → IfOk result (λ image.
        image.items ≡ last_synced first.now (events [] log.now pieces.now)) }
{
    let mut image = Vec::from_slice(alloc, first)?;
    let mut syncs = log.iter().filter(|call| call.is_sync()).count();
    let mut rest = pieces;
    let mut cut = tear.cut;
    for call in log {
        let piece = &rest[..call.kept()];
        rest = &rest[piece.len()..];
        if syncs > 0 {
            replay(&mut image, *call, piece)?;
            syncs -= usize::from(call.is_sync());
        } else {
            replay_torn(alloc, &mut image, *call, piece, &mut cut, tear.fill)?;
        }
    }
    Ok(image)
}

// Does what a call did.
fn replay(image: &mut Vec<u8>, call: Logged, piece: &[u8]) -> Result<(), AllocError>
    ensures { OnOk result
        (image.new.items ≡ content image.old.items (event_of call piece.now ∷ [])) }
{
    match call {
        Logged::Wrote { at, .. } => put(image, at as usize, piece),
        Logged::Tore { .. } | Logged::Synced => Ok(()),
    }
}

// Does what a call may have done in part, and takes its bytes from the cut.
fn replay_torn(
    alloc: Global,
    image: &mut Vec<u8>,
    call: Logged,
    piece: &[u8],
    cut: &mut u64,
    fill: Option<u8>,
) -> Result<(), AllocError>
    requires { length piece.now ≡ kept_of call }
    ensures torn { OnOk result (Tears call image.old.items image.new.items) }
    ensures there { OnOk result
        (image.new.items ≡ cut_call call piece.now image.old.items cut.old fill) }
    ensures cut { OnOk result (cut.new ≡ cut.old - size_of call) }
{
    match call {
        Logged::Wrote { at, size } => {
            let there = spend(cut, size);
            let front = Vec::from_slice(alloc, &piece[..there])?;
            patch(image, at as usize, front, size as usize, fill)
        }
        Logged::Tore { at, size } => {
            let there = spend(cut, size);
            if there == size as usize {
                return Ok(());
            }
            // Its bytes aren't kept: those in front of the cut are what the file has there.
            let front = part_of(alloc, image, at as usize, there)?;
            patch(image, at as usize, front, size as usize, fill)
        }
        Logged::Synced => Ok(()),
    }
}

// Takes a number from the cut, or what there is of it, and gives what it took.
fn spend(cut: &mut u64, size: u64) -> usize
    ensures spent { result ≡ min size cut.old }
    ensures rest { cut.new ≡ cut.old - size }
{
    let spent = size.min(*cut);
    *cut -= spent;
    spent as usize
}

// The bytes from a place on, at most so many.
fn part_of(alloc: Global, bytes: &[u8], at: usize, most: usize) -> Result<Vec<u8>, AllocError>
    ensures part { IfOk result (λ part. part.items ≡ part_at at most bytes.now) }
    ensures most { IfOk result (λ part. length part.items ≤ most) }
{
    let behind = bytes.get(at..).unwrap_or(&[]);
    Vec::from_slice(alloc, &behind[..most.min(behind.len())])
}

// Puts the front of a piece of that size at its place, and the fill behind it.
fn patch(
    image: &mut Vec<u8>,
    at: usize,
    front: Vec<u8>,
    size: usize,
    fill: Option<u8>,
) -> Result<(), AllocError>
    requires { length front.items ≤ size }
    ensures torn { OnOk result (Torn at size image.old.items image.new.items) }
    ensures patched { OnOk result
        (image.new.items ≡ patched image.old.items at size front.items fill) }
{
    if at > image.len() {
        return Ok(());
    }
    let piece = filled(front, size, fill)?;
    put(image, at, &piece)
}

// The front of a piece of that size, and the fill in the place of each byte behind it.
fn filled(mut front: Vec<u8>, size: usize, fill: Option<u8>) -> Result<Vec<u8>, AllocError>
    requires { length front.items ≤ size }
    ensures filled { IfOk result (λ piece. piece.items ≡ filled front.items size fill) }
    ensures most { IfOk result (λ piece. length piece.items ≤ size) }
{
    match fill {
        Some(byte) => front.resize(size, byte)?,
        None => {}
    }
    Ok(front)
}

// Puts a piece at its place, or at the end where that comes first.
fn put(bytes: &mut Vec<u8>, at: usize, piece: &[u8]) -> Result<(), AllocError>
    ensures { OnOk result (bytes.new.items ≡ written bytes.old.items at piece.now) }
{
    bytes.reserve(piece.len())?;
    let place = at.min(bytes.len());
    overwrite(bytes, place, piece);
    Ok(())
}
