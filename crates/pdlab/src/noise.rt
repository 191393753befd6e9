//! `pdlab sweep SCENARIO [EDITS] --noise PERCENT`.

use crate::Ending;
use crate::fault::tell_none_tried;
use crate::opened::{open, reaches, tell_scene};
use crate::put::put;
use crate::sweep::packets_of;
use pd_noise::{Noise, Runs, Telling, noise_text};
use pd_port::Meter;
use pd_sweep::Choice;
use pd_words::{NoiseOptions, Scene};
use std::alloc::Global;
use std::rt::Files;

/// Which packets are lost by lot.
fn noise_of(options: &NoiseOptions) -> Noise {
    Noise {
        choice: Choice {
            port: options.window.port,
            from: options.window.from,
            to: options.window.to,
            kind: options.kind,
        },
        share: options.share,
        seed: options.seed,
    }
}

/// In which runs they are.
fn runs_of(options: &NoiseOptions) -> Runs {
    Runs {
        first: options.first,
        count: options.runs,
    }
}

/// What is told of these.
fn telling_of(options: &NoiseOptions) -> Telling {
    if options.as_edits {
        Telling::Edits
    } else {
        Telling::Report
    }
}

/// Loses packets by lot in many runs of the scenario of a file, as the edits of a script leave it, and tells what they come to, or the
/// losses of the worst.
///
/// # Errors
/// Something kept it from being told; that is told.
pub fn noise<R: Files + Input + Print + Alloc<A = Global>, E: Print>(
    rt: &R,
    errors: &E,
    scene: Scene<'_>,
    options: &NoiseOptions,
) -> Result<Ending, Ending> {
    let opened = open(rt, errors, scene)?;
    reaches(rt, errors, &opened, options.window.from)?;
    let noise = noise_of(options);
    if packets_of(rt, errors, &opened, &noise.choice)? == 0 {
        return Err(tell_none_tried(errors, opened.file));
    }
    let (text, script) = (opened.text.as_slice(), opened.script.as_slice());
    let (runs, telling) = (runs_of(options), telling_of(options));
    let mut meter = Meter::new();
    match noise_text(
        rt.alloc(),
        text,
        script,
        opened.refused,
        &noise,
        runs,
        telling,
        &mut meter,
    ) {
        Ok(said) => put(rt, errors, None, said.as_slice())?,
        Err(fault) => return Err(tell_scene(rt, errors, &opened, noise.choice.port, fault)),
    }
    Ok(opened.ending)
}
