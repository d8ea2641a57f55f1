use service::fault::ServiceFault;
use service::rows::HandedBack;
use service::service::Service;
use sharing::shipped::Rule;
use std::test::Fail;
use values::instant::Instant;
use values::io::Io;
use values::rates::Rates;
use values::settings::Settings;

// A service of a throughput, with a cap of 32.
pub fn service_of(throughput: u32) -> Result<Service<Rule>, Fail> {
    Ok(Service::new(Settings::new(throughput, 32)?, Rule::Even))
}

// Makes a pool of a reserve; its number, or the number of the refusal as an error.
pub fn pool(
    service: &mut Service<Rule>,
    micros: u64,
    reserve: u32,
) -> Result<Result<u8, u8>, Fail> {
    Ok(number(service.make_pool(Instant::new(micros)?, Rates::new(reserve, None, 1)?)))
}

// Opens a session of a reserve in a pool.
pub fn open(
    service: &mut Service<Rule>,
    micros: u64,
    pool: u8,
    reserve: u32,
) -> Result<Result<u32, u8>, Fail> {
    Ok(number(service.open(Instant::new(micros)?, pool, Rates::new(reserve, None, 1)?)))
}

// A read of 8 sectors.
pub fn read(session: u32, address: u32) -> Result<Io, Fail> {
    Ok(Io::new(session, 0, address, 8)?)
}

// An answer, or the number of the refusal.
pub fn number<T: Drop>(answer: Result<T, ServiceFault>) -> Result<T, u8> {
    answer.map_err(ServiceFault::number)
}

// The number of the refusal, if it is one.
pub fn refusal<T: Drop>(answer: Result<T, ServiceFault>) -> Option<u8> {
    answer.err().map(ServiceFault::number)
}

// Whether a collected run is foreign.
pub fn foreign(answer: Result<HandedBack, ServiceFault>) -> Result<bool, Fail> {
    Ok(answer?.foreign)
}
