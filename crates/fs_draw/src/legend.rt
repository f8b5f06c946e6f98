//! The legend: what the signs of a picture mean.

use fs_draw_ink::Ink;
use fs_draw_layout::{add, less};
use fs_draw_scene::{Scene, What};
use std::alloc::{AllocError, Global};

/// How wide a column of the legend is, and how high a row of it.
const COLUMN: u64 = 270;

const LINE: u64 = 21;

/// A sign of the legend: how it is drawn, and what it means.
#[derive(Clone, Copy)]
struct Sign {
    drawing: &'static [u8],
    words: &'static [u8],
}

const WALKING: Sign = Sign {
    drawing: b"<path class=\"w\" d=\"M 0 0H 24v14H 0z\"/>",
    words: b"has not taken effect yet",
};

const DOT: &[u8] =
    b"<path class=\"w\" d=\"M 0 0H 8v14H 0z\"/><path class=\"f\" d=\"M 8 0H 26v14H 8z\"/><circle class=\"j\" cx=\"8\" cy=\"7\" r=\"4.5\"/><text class=\"m\" x=\"16\" y=\"11\">3</text>";

const COMMIT: Sign = Sign {
    drawing: DOT,
    words: b"takes effect, 3rd in order",
};

/// The same where numbers begin again.
const PIECE_COMMIT: Sign = Sign {
    drawing: DOT,
    words: b"takes effect, 3rd of its piece",
};

const DONE: Sign = Sign {
    drawing: b"<path class=\"f\" d=\"M 0 0H 24v14H 0z\"/>",
    words: b"has taken effect",
};

const ARROWED: Sign = Sign {
    drawing: b"<path class=\"x\" d=\"M 1 7H 8\"/><path class=\"y\" d=\"M 14 7l-7 -4v8z\"/><circle class=\"y\" cx=\"19\" cy=\"7\" r=\"4.5\"/>",
    words: b"another call helps it take effect",
};

const HATCHED: Sign = Sign {
    drawing: b"<path class=\"p\" d=\"M 0 0H 24v14H 0z\"/>",
    words: b"helped, its change still to come",
};

const TICK: Sign = Sign {
    drawing: b"<path class=\"w\" d=\"M 0 0H 24v14H 0z\"/><path class=\"i\" d=\"M 5 11v3M 10 11v3M 19 11v3\"/>",
    words: b"tick: an event of the call",
};

const HELD: Sign = Sign {
    drawing: b"<path class=\"h\" d=\"M 0 1H 24v11H 0z\"/><text class=\"n\" x=\"3\" y=\"10\">d</text>",
    words: b"has d locked",
};

const WAITING: Sign = Sign {
    drawing: b"<path class=\"w\" d=\"M 0 0H 24v14H 0z\"/><path class=\"u\" d=\"M 8 1H 24v12H 8z\"/>",
    words: b"/ m#2: waits for /, locked by m#2",
};

/// The same where waits are folded.
const FOLDED: Sign = Sign {
    drawing: b"<path class=\"w\" d=\"M 0 0H 24v14H 0z\"/><path class=\"u\" d=\"M 8 1H 24v12H 8z\"/>",
    words: b"waits for what others have locked",
};

const NEW: Sign = Sign {
    drawing: b"<text class=\"n Y\" x=\"9\" y=\"11\">x</text>",
    words: b"new in the tree, or changed",
};

const UNRETURNED: Sign = Sign {
    drawing: b"<path class=\"w\" d=\"M 16 0H 0v14H 16\"/><text class=\"o\" x=\"18\" y=\"11\">?</text>",
    words: b"has not returned",
};

const CHECKPOINT: Sign = Sign {
    drawing: b"<path class=\"j\" d=\"M 12 -1V 15\"/>",
    words: b"checkpoint: numbers begin again",
};

const FAULTY: Sign = Sign {
    drawing: b"<path class=\"r\" d=\"M 12 -1V 15\"/>",
    words: b"the first fault of the journal",
};

/// Which signs occur.
#[derive(Clone, Copy, Default)]
struct Occurring {
    commits: bool,
    gives: bool,
    carries: bool,
    holds: bool,
    waits: bool,
    unreturned: bool,
}

fn which_occur(scene: &Scene) -> Occurring {
    let mut signs = Occurring {
        commits: false,
        gives: false,
        carries: false,
        holds: false,
        waits: false,
        unreturned: false,
    };
    for mark in &scene.marks {
        match mark.what {
            What::Commit => signs.commits = true,
            What::Help(_) => signs.gives = true,
            What::Carry => signs.carries = true,
            What::Take(_) => signs.holds = true,
            What::Wait(_, _) => signs.waits = true,
            _ => {}
        }
    }
    for card in &scene.cards {
        signs.unreturned = signs.unreturned || card.reply.is_none();
    }
    signs
}

/// Whether a tree has an entry that is new in it.
fn has_new(scene: &Scene) -> bool {
    scene
        .trees
        .iter()
        .any(|tree| tree.leaves.iter().any(|leaf| leaf.is_new))
}

/// The signs that occur, in order.
fn signs_of(alloc: Global, scene: &Scene) -> Result<Vec<Sign>, AllocError> {
    let occur = which_occur(scene);
    let nodes = scene.shows_nodes();
    let in_pieces = !scene.checkpoints.is_empty();
    let all = [
        (!scene.cards.is_empty(), WALKING),
        (occur.commits && !in_pieces, COMMIT),
        (occur.commits && in_pieces, PIECE_COMMIT),
        (occur.commits || occur.carries, DONE),
        (occur.gives, ARROWED),
        (occur.gives, HATCHED),
        (!scene.cards.is_empty() && scene.shows_ticks(), TICK),
        (occur.holds && nodes, HELD),
        (occur.waits && nodes && !scene.folds, WAITING),
        (occur.waits && nodes && scene.folds, FOLDED),
        (occur.unreturned, UNRETURNED),
        (in_pieces, CHECKPOINT),
        (scene.fault.is_some(), FAULTY),
        (has_new(scene), NEW),
    ];
    let mut signs = Vec::new(alloc);
    for (occurs, sign) in all {
        if occurs {
            signs.push(sign)?;
        }
    }
    Ok(signs)
}

/// Writes the legend, whose first line has its top here, and answers where it ends.
pub(crate) fn write_legend(
    alloc: Global,
    scene: &Scene,
    width: u64,
    top: u64,
    ink: &mut Ink,
) -> Result<u64, AllocError> {
    let signs = signs_of(alloc, scene)?;
    let columns = (less(width, 20) / COLUMN).max(1);
    let mut bottom = top;
    ink.raw(b"<g class=\"s\">")?;
    for i in 0..signs.len() {
        let column = i as u64 % columns;
        let line = i as u64 / columns;
        let y = add(top, line.saturating_mul(LINE));
        ink.with(
            b"<g transform=\"translate(",
            add(10, column.saturating_mul(COLUMN)),
        )?;
        ink.with(b" ", y)?;
        ink.raw(b")\">")?;
        ink.raw(signs[i].drawing)?;
        ink.raw(b"<text x=\"32\" y=\"11\">")?;
        ink.words(signs[i].words)?;
        ink.raw(b"</text></g>")?;
        bottom = add(y, LINE);
    }
    ink.raw(b"</g>\n")?;
    Ok(bottom)
}
