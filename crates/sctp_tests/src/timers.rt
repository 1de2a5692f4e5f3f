// The timers have codes in their order.
use sctp_parts::timer::Timer;

const _: () = prove!(Timer::T1Init as usize == 0 && Timer::VALUES[0] as usize == 0);

const _: () = prove!(Timer::T1Cookie as usize == 1 && Timer::VALUES[1] as usize == 1);

const _: () = prove!(Timer::T2Shutdown as usize == 2 && Timer::VALUES[2] as usize == 2);

const _: () = prove!(Timer::T3RTX as usize == 3 && Timer::VALUES[3] as usize == 3);

const _: () = prove!(Timer::Reconfig as usize == 4 && Timer::VALUES[4] as usize == 4);

const _: () = prove!(Timer::Ack as usize == 5 && Timer::VALUES[5] as usize == 5);
