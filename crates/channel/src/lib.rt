// The channel: its region and the Shichman-Hodges current (`eval` in mosfet1.rs).
#![tactic(auto)]

ghost use Rattle.std.specs.Prelude.{◌≡◌};
ghost use Rattle.channel.specs.Channel.{region_of, triode_of, saturation_of, shichman_hodges_of, norton_current_of};

// Where the channel stands.
#[derive(Clone, Copy)]
pub enum Region {
    Cutoff,
    Triode,
    Saturation,
}

// The drain current and its slopes by vgs, vds and vbs.
#[derive(Clone, Copy)]
pub struct Channel {
    pub ids: f64,
    pub gm: f64,
    pub gds: f64,
    pub gmbs: f64,
}

// Equality of vgs and vth conducts; equality of vds and vdsat saturates.
pub fn region_at(vgs: f64, vth: f64, vds: f64, vdsat: f64) -> Region
    ensures { result ≡ region_of vgs vth vds vdsat }
{
    if vgs < vth {
        return Region::Cutoff;
    }
    if vds < vdsat {
        return Region::Triode;
    }
    Region::Saturation
}

fn triode(beta: f64, vdsat: f64, vds: f64, lambda: f64, slope: f64) -> Channel
    ensures { result ≡ triode_of beta vdsat vds lambda slope }
{
    let clm = 1.0 + lambda * vds;
    let gm = beta * vds * clm;
    Channel {
        ids: beta * (vdsat * vds - 0.5 * vds * vds) * clm,
        gm,
        gds: beta * (vdsat - vds) * clm + beta * (vdsat * vds - 0.5 * vds * vds) * lambda,
        gmbs: -gm * slope,
    }
}

fn saturation(beta: f64, vdsat: f64, vds: f64, lambda: f64, slope: f64) -> Channel
    ensures { result ≡ saturation_of beta vdsat vds lambda slope }
{
    let clm = 1.0 + lambda * vds;
    let gm = beta * vdsat * clm;
    Channel {
        ids: 0.5 * beta * vdsat * vdsat * clm,
        gm,
        gds: 0.5 * beta * vdsat * vdsat * lambda,
        gmbs: -gm * slope,
    }
}

// The tests are those of `region_at`, written out: a Region would be made only to be taken apart.
pub fn shichman_hodges(beta: f64, vgs: f64, vds: f64, vth: f64, lambda: f64, slope: f64) -> Channel
    ensures { result ≡ shichman_hodges_of beta vgs vds vth lambda slope }
{
    let vdsat = vgs - vth;
    if vth > vgs {
        return Channel {
            ids: 0.0,
            gm: 0.0,
            gds: 0.0,
            gmbs: 0.0,
        };
    }
    if vdsat > vds {
        return triode(beta, vdsat, vds, lambda, slope);
    }
    saturation(beta, vdsat, vds, lambda, slope)
}

// What is left of the current when the conductances' shares are taken off, in real (not flipped) terms.
pub fn norton_current(ids: f64, gm: f64, vgs: f64, gds: f64, vds: f64, gmbs: f64, vbs: f64) -> f64
    ensures { result ≡ norton_current_of ids gm vgs gds vds gmbs vbs }
{
    ids - gm * vgs - gds * vds - gmbs * vbs
}
