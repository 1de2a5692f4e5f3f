// Which steps of a pair are kept from a channel's stream.
ghost use Rattle.std.specs.Prelude.{◌≡◌};
ghost use Rattle.channel_pair.specs.Names.{names};

use sctp_assoc::StreamId;
use sctp_pair::Step;

// Whether a step names this stream, or may name it as its answer. A table of the steps.
pub(crate) fn names(step: &Step, asked: StreamId) -> bool
    ensures { result ≡ names step.now asked }
{
    match step {
        Step::OpenStream { id, .. } => *id == asked,
        Step::Stream { id, .. } => *id == asked,
        Step::AcceptStream { .. } => true,
        Step::StreamIds { .. } => false,
        Step::SetMaxSendMessageSize { .. } => false,
        Step::Write { id, .. } => *id == asked,
        Step::WriteWithPpi { id, .. } => *id == asked,
        Step::WriteSctp { id, .. } => *id == asked,
        Step::WriteChunk { id, .. } => *id == asked,
        Step::WriteChunks { id, .. } => *id == asked,
        Step::Read { id, .. } => *id == asked,
        Step::ReadSctp { id, .. } => *id == asked,
        Step::Finish { id, .. } => *id == asked,
        Step::Stop { id, .. } => *id == asked,
        Step::CloseStream { id, .. } => *id == asked,
        Step::SetReliabilityParams { id, .. } => *id == asked,
        Step::SetDefaultPayloadType { id, .. } => *id == asked,
        Step::SetBufferedAmountLowThreshold { id, .. } => *id == asked,
        Step::SetBufferedAmountHighThreshold { id, .. } => *id == asked,
        Step::StreamStats { id, .. } => *id == asked,
        Step::IsReadable { id, .. } => *id == asked,
        Step::IsWritable { id, .. } => *id == asked,
        Step::StreamIdentifier { id, .. } => *id == asked,
        Step::GetDefaultPayloadType { id, .. } => *id == asked,
        Step::BufferedAmountLowThreshold { id, .. } => *id == asked,
        Step::BufferedAmountHighThreshold { id, .. } => *id == asked,
        Step::Shutdown { .. } => false,
        Step::Close { .. } => false,
        Step::BufferedAmount { id, .. } => *id == asked,
        Step::Poll { .. } => false,
        Step::PollEndpointEvent { .. } => false,
        Step::PollTimeout { .. } => false,
        Step::PollTransmit { .. } => false,
        Step::HandleTimeout { .. } => false,
        Step::Deliver { .. } => false,
        Step::IsHandshaking { .. } => false,
        Step::IsClosed { .. } => false,
        Step::IsClosing { .. } => false,
        Step::IsDrained { .. } => false,
        Step::IsFailed { .. } => false,
        Step::Rtt { .. } => false,
        Step::Stats { .. } => false,
        Step::Side { .. } => false,
        Step::RemoteAddr { .. } => false,
        Step::LocalIp { .. } => false,
    }
}
