// The computation over blocks (FIPS 180-4, section 6.2.2, steps 2 to 4), and the digest of a hash value.
ghost use Rattle.std.specs.Prelude.{◌≡◌, ◌+◌, ◌≤◌, fold};
ghost use Rattle.sha256.specs.Fips180 as fips;
ghost use Rattle.sha256.specs.declared.compress.State.{State};

use crate::constants::K;
use crate::functions::{big_sigma0, big_sigma1, ch, maj};
use crate::schedule::schedule;

// The working variables a to h; and a hash value, H0 to H7 in their places.
#[derive(Clone, Copy)]
pub struct State {
    pub a: u32,
    pub b: u32,
    pub c: u32,
    pub d: u32,
    pub e: u32,
    pub f: u32,
    pub g: u32,
    pub h: u32,
}

#[tactic(auto, unfolding(crate::specs::Fips180::turn, crate::specs::Fips180::T1, crate::specs::Fips180::T2))]
fn turn(s: State, k: u32, w: u32) -> State
    ensures { result ≡ fips.turn s k w }
{
    let t1 = s
        .h
        .wrapping_add(big_sigma1(s.e))
        .wrapping_add(ch(s.e, s.f, s.g))
        .wrapping_add(k)
        .wrapping_add(w);
    let t2 = big_sigma0(s.a).wrapping_add(maj(s.a, s.b, s.c));
    State {
        a: t1.wrapping_add(t2),
        b: s.a,
        c: s.b,
        d: s.c,
        e: s.d.wrapping_add(t1),
        f: s.e,
        g: s.f,
        h: s.g,
    }
}

// The turns t to t + 7.
fn eight_turns(st: State, w: &[u32; 64], t: usize) -> State
    requires { t + 8 ≤ 64 }
    ensures { (h : State) → st ≡ fips.turns h w.now t → result ≡ fips.turns h w.now (t + 8) }
{
    let mut s = st;
    for i in t..t + 8 {
        s = turn(s, K[i], w[i]);
    }
    s
}

// Eight turns of the standard's loop to one of ours, which the compiler writes out: one by one, a hash takes a seventh longer.
#[tactic(auto, unfolding(crate::specs::Fips180::turns))]
fn turns(st: State, w: &[u32; 64]) -> State
    ensures { result ≡ fips.turns st w.now 64 }
{
    let mut s = st;
    for i in 0..8 {
        s = eight_turns(s, w, 8 * i);
    }
    s
}

#[tactic(auto, unfolding(crate::specs::Fips180::added))]
fn added(s: State, h: State) -> State
    ensures { result ≡ fips.added s h }
{
    State {
        a: s.a.wrapping_add(h.a),
        b: s.b.wrapping_add(h.b),
        c: s.c.wrapping_add(h.c),
        d: s.d.wrapping_add(h.d),
        e: s.e.wrapping_add(h.e),
        f: s.f.wrapping_add(h.f),
        g: s.g.wrapping_add(h.g),
        h: s.h.wrapping_add(h.h),
    }
}

#[tactic(auto, unfolding(crate::specs::Fips180::compress))]
fn compress(h: State, b: &[u8; 64]) -> State
    ensures { result ≡ fips.compress h b.now }
{
    added(turns(h, &schedule(b)), h)
}

// The hash value after the blocks of p, from h0 before them.
pub fn blocks(h0: State, p: &[[u8; 64]]) -> State
    ensures { result ≡ fold fips.compress h0 p.now }
{
    p.iter().fold(h0, compress)
}

pub fn digest(h: State) -> [u8; 32]
    ensures { result ≡ fips.digest h }
{
    let words = [h.a, h.b, h.c, h.d, h.e, h.f, h.g, h.h];
    let mut out = [0; 32];
    for (i, x) in words.iter().enumerate() {
        out[4 * i..4 * i + 4].copy_from_slice(&x.to_be_bytes());
    }
    out
}
