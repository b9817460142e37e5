//! Laws of captures. The functions have no effect at run time: each contract is a law.

ghost use Rattle.mq_laws.specs.CaptureFiles.{OneCapture, FaultsStay};

/// The law `OneCapture`: no bytes are two captures.
pub fn one_capture()
    ensures { OneCapture }
{}

/// The law `FaultsStay`: a record with too great a length, or one too many, has that fault whatever follows.
pub fn faults_stay()
    ensures { FaultsStay }
{}
