// Worked examples of the calls of all crates, each proved safe and then run.
#![tactic(auto)]

#[cfg(test)]
mod hearing;
#[cfg(test)]
mod inputs;
#[cfg(test)]
mod listed;
#[cfg(test)]
mod readings;
#[cfg(test)]
mod refused;
#[cfg(test)]
mod runs;
#[cfg(test)]
mod sending;
#[cfg(test)]
mod worked;

#[cfg(test)]
mod tests {
    use code::{EncodeRefusal, Order, Peeked, encode_report, peek_report};

    #[test]
    fn buffer(rt: HostRuntime) {
        let mut buffer = [0xff; 9];
        assert_eq!(rt;
            encode_report(&[0x80], 4, &Order::order_r(), &mut buffer[0..7]),
            Err(EncodeRefusal::Buffer)
        );
        assert_eq!(rt;
            encode_report(&[0x80], 4, &Order::order_r(), &mut buffer),
            Ok(())
        );
        assert_eq!(rt;
            buffer,
            [0x80, 0x0b, 0x20, 0x60, 0x20, 0x62, 0x22, 0x60, 0xff]
        );
        let mut report = [0];
        assert_eq!(rt;
            peek_report(&buffer, 1, 4, &mut report),
            Ok(Peeked {
                check_fits: true,
                tail_fits: true,
            })
        );
        assert_eq!(rt; report, [0x80]);
    }
}
