//! What chosen images have in common.
ghost use Rattle.std.specs.Prelude.{◌≡◌, List, All, length};
ghost use Rattle.memory_host.specs.Replay.{State, image_by, image_of};
ghost use Rattle.memory_host.specs.declared.host.Choice.{Choice};

/// With the same choice for each pending range, the image is that of the one choice.
pub fn equal_choices_are_one_choice()
    ensures { (choice : Choice) (choices : List Choice) (m : State)
        → All (λ (c : Choice). c ≡ choice) choices
        → length choices ≡ length m.pending → image_by choices m ≡ image_of choice m }
{}
