//! The way back from a refusal.
use crate::faults::JsonFault;
use crate::step::JsonStep;
use std::alloc::Global;
use std::marker::Model;

/// The steps from where a walk is to what was refused. Each level adds its step on the way out of a refusal. A trail
/// that isn't kept takes no memory.
#[derive(Drop)]
pub struct JsonTrail {
    // the last step first
    steps: Option<Vec<JsonStep>>,
}

impl Model for JsonTrail {
    ghost use Rattle.std.specs.Prelude.{List, Option, option_map, reverse};
    ghost use Rattle.fb_json.specs.declared.step.JsonStep.{JsonStep};

    ghost Value = { Option (List JsonStep) };

    ghost view = { λ t. option_map (λ steps. reverse steps.items) t.steps };
}

impl JsonTrail {
    ghost use Rattle.std.specs.Prelude.{◌≡◌, ◌⊎◌, [], ◌∷◌, Some, None, option_map};
    ghost use Rattle.fb_json.specs.declared.faults.JsonFault.TheVariants.{Memory};

    /// A trail that is not kept.
    pub fn none() -> JsonTrail
        ensures { result ≡ None }
    {
        JsonTrail { steps: None }
    }

    /// A trail without steps.
    pub fn new(alloc: Global) -> JsonTrail
        ensures { result ≡ Some [] }
    {
        JsonTrail {
            steps: Some(Vec::new(alloc)),
        }
    }

    /// Whether steps are kept.
    pub fn is_kept(&self) -> bool {
        self.steps.is_some()
    }

    /// The fault after this step, which is added before the others; `Memory` where that is refused.
    pub fn push_step(&mut self, step: JsonStep, fault: JsonFault) -> JsonFault
        ensures step { (result ≡ Memory)
            ⊎ ((result ≡ fault) × (self.new ≡ option_map (λ steps. step ∷ steps) self.old)) }
        ensures unkept { self.old ≡ None → result ≡ fault }
    {
        match &mut self.steps {
            None => fault,
            Some(steps) => match steps.push(step) {
                Ok(()) => fault,
                Err(_) => JsonFault::Memory,
            },
        }
    }

    /// The steps from the first, where they were kept.
    pub fn into_steps(self) -> Option<Vec<JsonStep>>
        ensures { option_map (λ steps. steps.items) result ≡ self }
    {
        let mut steps = self.steps?;
        steps.reverse();
        Some(steps)
    }
}
