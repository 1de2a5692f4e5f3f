// Spans of streams that end.
ghost use Rattle.sctp_fit.specs.Spans.{SpansEnd, SpansEndWhereItComes, StreamsPastTheirSpanChange};
ghost use Rattle.sctp_fit.specs.Spans.{StreamsPastTheirSpanChangeWhereItComes};

/// Where the span of a stream ends, that stream alone may become anything, and an association still fits its direction,
/// as its sender and as its receiver. So it does whatever becomes of streams past their span.
pub fn spans_end()
    ensures outgoing { SpansEnd }
    ensures incoming { SpansEndWhereItComes }
    ensures past { StreamsPastTheirSpanChange }
    ensures past_where_it_comes { StreamsPastTheirSpanChangeWhereItComes }
{}
