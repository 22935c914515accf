// The lines that are read, as the records that they say.
ghost use Rattle.std.specs.Prelude.{◌≡◌, min};
ghost use Rattle.listing.specs.Bench.{float_of, particle_of};
ghost use Rattle.listing.specs.Feeding.{settings_read, region_read, particle_read};
ghost use Rattle.listing.specs.Lines.{line_of};
ghost use Rattle.listing.specs.Listing.{w, settings_kinds, r, region_kinds, p, particle_kinds};

use crate::lines::read_line;
use numeric::dim2::{Matrix, Point, Vector};
use particles::particle::Particle;

// What a `w` line says.
#[derive(Clone, Copy)]
pub struct Settings {
    pub cell_width: f32,
    pub dt: f32,
    pub gravity: Vector,
}

// What an `r` line says.
#[derive(Clone, Copy)]
pub struct Region {
    pub id: u64,
    pub start: u64,
    pub count: u64,
}

// Each reads one line, without its line feed.
pub fn settings_line(text: &[u8]) -> Option<Settings>
    ensures { result ≡ settings_read (line_of w settings_kinds text.now) }
{
    let v = read_line(text, b'w', b"ffff")?;
    Some(Settings {
        cell_width: float(v[0]),
        dt: float(v[1]),
        gravity: vector(v[2], v[3]),
    })
}

pub fn region_line(text: &[u8]) -> Option<Region>
    ensures { result ≡ region_read (line_of r region_kinds text.now) }
{
    let v = read_line(text, b'r', b"ddd")?;
    Some(Region {
        id: v[0],
        start: v[1],
        count: v[2],
    })
}

pub fn particle_line(text: &[u8]) -> Option<Particle>
    ensures { result ≡ particle_read (line_of p particle_kinds text.now) }
{
    let v = read_line(text, b'p', b"fffffffffffffffffd")?;
    Some(particle(v))
}

// The rest of the record is 0, and the fields are in the order of the line.
#[tactic(auto, unfolding(crate::specs::Bench::particle_of))]
fn particle(v: [u64; 18]) -> Particle
    ensures { result ≡ particle_of v }
{
    Particle {
        position: Point {
            x: float(v[0]),
            y: float(v[1]),
        },
        velocity: vector(v[2], v[3]),
        velocity_gradient: matrix(v[4], v[5], v[6], v[7]),
        stress: matrix(v[8], v[9], v[10], v[11]),
        mass: float(v[12]),
        volume0: float(v[13]),
        phase: float(v[14]),
        crack_propagation_factor: float(v[15]),
        psi_pos: float(v[16]),
        deformation_gradient: Matrix {
            m00: 0.0,
            m01: 0.0,
            m10: 0.0,
            m11: 0.0,
        },
        crack_threshold: 0.0,
        parameter1: 0.0,
        parameter2: 0.0,
        kinematic_vel: Vector { x: 0.0, y: 0.0 },
        failed: flag(v[17]),
        kinematic: 0,
        fluid: 0,
        is_static: 0,
    }
}

fn vector(x: u64, y: u64) -> Vector
    ensures { (result.x ≡ float_of x) × (result.y ≡ float_of y) }
{
    Vector {
        x: float(x),
        y: float(y),
    }
}

fn matrix(a: u64, b: u64, c: u64, d: u64) -> Matrix
    ensures { (result.m00 ≡ float_of a) × (result.m01 ≡ float_of b) × (result.m10 ≡ float_of c) × (result.m11 ≡ float_of d) }
{
    Matrix {
        m00: float(a),
        m01: float(b),
        m10: float(c),
        m11: float(d),
    }
}

fn float(v: u64) -> f32
    ensures { result ≡ float_of v }
{
    numeric::from_bits(fields::low(v))
}

// A flag, and 2 for whatever is none: a call refuses every number above 1.
fn flag(v: u64) -> u32
    ensures { result ≡ min v 2 }
{
    v.min(2) as u32
}
