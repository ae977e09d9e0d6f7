// A law of devices, on the contract of a function.
ghost use Rattle.devices.specs.Laws.{AllOrOdd};

/// Of every layout either all devices are read, each once, or an odd channel is shown.
pub fn devices_stand() -> u8
    ensures { AllOrOdd }
{
    0
}
