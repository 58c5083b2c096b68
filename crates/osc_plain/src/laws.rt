//! What the definitions say of examples.
ghost use Rattle.std.specs.Prelude.{◌≡◌, ◌++◌, IsOkAnd, codes};
ghost use Rattle.osc_words.specs.Ranges.{default_capacities};
ghost use Rattle.osc_script.specs.declared.mode.Mode.TheVariants.{Plain};
ghost use Rattle.osc_script.specs.Scripts.{script_of};
ghost use Rattle.osc_plain.specs.Commands.{plain_limits};
ghost use Rattle.osc_plain.specs.Runs.{run_text};

/// A method, a message to it, and its call.
pub fn first_light()
    ensures { IsOkAnd
        (script_of Plain
        (codes "add /light/dim\nsend 2f6c696768742f64696d0000 2c690000 00000007\npump\n"))
        (λ lines. run_text (plain_limits default_capacities) lines
        ≡ codes "add 0 /light/dim id 0\nsubmit 0 queued 0 1\nrelease 0 0 1\n"
        ++ codes "call 0 0 0 /light/dim ,i i:7\n") }
{}

/// A clock that stands at 1 isn't set back.
pub fn early_tick()
    ensures { IsOkAnd (script_of Plain (codes "tick 0000000000000000\n"))
        (λ lines. run_text (plain_limits default_capacities) lines
        ≡ codes "tick 0 0000000000000000 clock-back 0000000000000001\n") }
{}
