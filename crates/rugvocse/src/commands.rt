// The commands of a script.
use crate::numbers::{double, name, whole};
use crate::scene::Points;
use crate::text::{Tokens, word};
use extent::Extent;
use field::STORE;
use layout::{Anchor, Centre, Channel};
use selector::Ring;

#[derive(Clone, Copy)]
pub enum Command {
    Layout,
    Channel(Channel),
    Layer(f64),
    Row(f64),
    Anchor(Anchor),
    Epoch(u64),
    Extent(Extent),
    Zones([bool; 6]),
    Centre(Centre),
    Points(Points),
    Slots(usize),
    Store(usize),
    Fill(f64),
    Fresh,
    State(Ring),
    Gains,
    Show,
}

// N doubles.
fn doubles<const N: usize>(tokens: &mut Tokens<'_>) -> Option<[f64; N]> {
    let mut values = [0.0; N];
    for value in values.iter_mut() {
        *value = double(tokens.next()?)?;
    }
    Some(values)
}

// A whole number of at most so much.
fn at_most(tokens: &mut Tokens<'_>, most: u64) -> Option<u64> {
    whole(tokens.next()?).filter(|n| *n <= most)
}

fn channel(tokens: &mut Tokens<'_>) -> Option<Channel> {
    let name = name(tokens.next()?)?;
    let enabled = !tokens.skip_word(b"off");
    let lfe = tokens.skip_word(b"lfe");
    Some(Channel { name, enabled, lfe })
}

fn anchor(tokens: &mut Tokens<'_>) -> Option<Anchor> {
    let name = name(tokens.next()?)?;
    let x = double(tokens.next()?)?;
    Some(Anchor { name, x })
}

// Six letters, T or F.
fn zones(token: &[u8]) -> Option<[bool; 6]> {
    let letters: [u8; 6] = token.try_into().ok()?;
    let is_known = letters.iter().all(|c| matches!(*c, b'T' | b'F'));
    is_known.then(|| letters.map(|c| c == b'T'))
}

// At most 32 doubles, all that are left.
fn points(tokens: &mut Tokens<'_>) -> Option<Points> {
    let mut points = Points::new();
    for token in tokens {
        points.push(double(token)?)?;
    }
    Some(points)
}

fn of_word(w: &[u8], tokens: &mut Tokens<'_>) -> Option<Command> {
    let command = match w {
        b"layout" => Command::Layout,
        b"channel" => Command::Channel(channel(tokens)?),
        b"layer" => Command::Layer(double(tokens.next()?)?),
        b"row" => Command::Row(double(tokens.next()?)?),
        b"anchor" => Command::Anchor(anchor(tokens)?),
        b"epoch" => Command::Epoch(whole(tokens.next()?)?),
        b"extent" => {
            let [x, y, z] = doubles::<3>(tokens)?;
            Command::Extent(Extent { x, y, z })
        }
        b"zones" => Command::Zones(zones(tokens.next()?)?),
        b"centre" => {
            let [x, y, z] = doubles::<3>(tokens)?;
            Command::Centre(Centre { x, y, z })
        }
        b"points" => Command::Points(points(tokens)?),
        b"slots" => Command::Slots(at_most(tokens, 32)? as usize),
        b"store" => Command::Store(at_most(tokens, STORE as u64)? as usize),
        b"fill" => Command::Fill(double(tokens.next()?)?),
        b"fresh" => Command::Fresh,
        b"state" => {
            let count = whole(tokens.next()?)? as usize;
            let oldest = whole(tokens.next()?)? as usize;
            Command::State(Ring { count, oldest })
        }
        b"gains" => Command::Gains,
        b"show" => Command::Show,
        _ => return None,
    };
    Some(command)
}

// The command that a first token and those behind it make.
pub fn read(first: &[u8], mut tokens: Tokens<'_>) -> Option<Command> {
    let command = of_word(word(first)?, &mut tokens)?;
    tokens.end()?;
    Some(command)
}
