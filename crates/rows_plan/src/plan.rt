ghost use Rattle.std.specs.Prelude.{◌≡◌};
ghost use Rattle.conda_dev.specs.Memory.{host_state};

use conda_dev::{Effect, FailAt, MemHost, Target};
use conda_path::Prefix;
use std::alloc::{AllocError, Global};
use std::sync::Wait;

/// The plan of failing calls that a text gives, parted by `;`: `host`, `input`, `output`, `chan
/// NUMBER`, `store NUMBER` or `lane PREFIX NUMBER`, then `fails at CALL before` or `fails at CALL after`. What isn't of this form is
/// passed over.
pub fn plan_of(alloc: Global, text: &str) -> Result<Vec<FailAt>, AllocError> {
    let mut plan = Vec::new(alloc);
    for entry in text.split(';') {
        let mut words = Vec::new(alloc);
        for word in entry.split_whitespace() {
            words.push(word)?;
        }
        if let Some(fail) = fail_of(alloc, words.as_slice()) {
            plan.push(fail)?;
        }
    }
    Ok(plan)
}

fn fail_of(alloc: Global, words: &[&str]) -> Option<FailAt> {
    match words {
        [target @ .., "fails", "at", call, effect] => {
            let on = target_of(alloc, target)?;
            let Ok(call) = call.parse::<u64>() else {
                return None;
            };
            let effect = effect_of(*effect);
            Some(FailAt { on, call, effect })
        }
        _ => None,
    }
}

/// The target that words name: `host`, `input`, `output`, `chan NUMBER`, `store NUMBER` or `lane
/// PREFIX NUMBER`.
pub fn target_of(alloc: Global, words: &[&str]) -> Option<Target> {
    match words {
        ["host"] => Some(Target::Host),
        ["input"] => Some(Target::Input),
        ["output"] => Some(Target::Output),
        ["chan", number] => match number.parse::<u32>() {
            Ok(number) => Some(Target::Chan(number)),
            Err(_) => None,
        },
        ["store", number] => match number.parse::<u32>() {
            Ok(number) => Some(Target::Store(number)),
            Err(_) => None,
        },
        ["lane", prefix, number] => {
            let Ok(prefix) = Prefix::read(alloc, *prefix) else {
                return None;
            };
            let Ok(number) = number.parse::<u32>() else {
                return None;
            };
            Some(Target::Lane { prefix, number })
        }
        _ => None,
    }
}

/// The effect of the word `before` or `after`.
pub fn effect_of(word: &str) -> Effect {
    match word {
        "before" => Effect::Before,
        _ => Effect::After,
    }
}

/// Makes a target fail from a call on, where the text is `TARGET from CALL EFFECT`.
pub fn stop_at<R: Wait + Clone + Drop>(
    alloc: Global,
    host: &mut MemHost<R>,
    text: &str,
) -> Result<(), AllocError>
    ensures { host_state host.new ≡ host_state host.old }
{
    let Some((target, at)) = text.split_once(" from ") else {
        return Ok(());
    };
    let Some((call, effect)) = at.split_once(' ') else {
        return Ok(());
    };
    let mut words = Vec::new(alloc);
    for word in target.split_whitespace() {
        words.push(word)?;
    }
    let (Some(target), Ok(call)) = (target_of(alloc, words.as_slice()), call.parse::<u64>()) else {
        return Ok(());
    };
    host.stop_after(target, call, effect_of(effect))
}
