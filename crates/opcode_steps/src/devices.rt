//! Steps over the opcodes of devices: a function without a body.

ghost use Rattle.machine_stands.specs.Simulates.{Simulates};
ghost use Rattle.opcode_steps.specs.Devices.Family.{is_device};

/// From each opcode of a device the machine comes to where it stands for the next state.
pub fn devices_are_simulated()
    ensures { Simulates is_device }
{
    micro_sketch::laws::rows_are_steps();
    machine_stands::rows_are_read();
    machine_stands::sketches_show();
    machine_stands::rows_come();
    machine_stands::operands_have_words();
}
