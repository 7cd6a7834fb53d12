// Judging a setup, refusals 1 to 4, and putting it together: one place for runs, tables and logs.
#![tactic(auto)]

ghost use Rattle.std.specs.Prelude.{◌≡◌, ◌≤◌, cond, length, drop, eqb};
ghost use Rattle.lists.specs.Lists.{within, zeros};
ghost use Rattle.rule.specs.Setups.{slice_fits_lem, bytes_fit_lem, setup_refusal_lem};
ghost use Rattle.setups.specs.Numbers.{refusal_number, policy_number, KnownPolicy, setup_number};
ghost use Rattle.setups.specs.Judging.{asked_by, JudgesSetup};

use rule::Setup;

// Why a setup is refused: refusals 1 to 4.
#[derive(Clone, Copy, Debug, PartialEq, Eq)]
pub enum SetupRefusal {
    WrongPolicy = 1,
    WrongCount = 2,
    WrongSlice = 3,
    WrongPriorities = 4,
}

impl From<SetupRefusal> for u32 {
    ghost from_gives = { λ refusal number. number ≡ refusal_number refusal };

    fn from(refusal: SetupRefusal) -> u32 {
        refusal as u32
    }
}

// "1 priority, 2 round robin".
#[derive(Clone, Copy, Debug, PartialEq, Eq)]
pub enum Policy {
    Priority = 1,
    RoundRobin = 2,
}

impl TryFrom<u32> for Policy {
    type Error = SetupRefusal;

    ghost try_from_gives = { KnownPolicy };

    fn try_from(number: u32) -> Result<Policy, SetupRefusal> {
        match number {
            1 => Ok(Policy::Priority),
            2 => Ok(Policy::RoundRobin),
            _ => Err(SetupRefusal::WrongPolicy),
        }
    }
}

// A setup as it is asked for: any numbers, and priorities of any length.
#[derive(Clone, Copy)]
pub struct Asked<'a> {
    pub policy: u32,
    pub count: u32,
    pub slice: u32,
    pub priorities: &'a [u8],
}

// The setup that is asked for is one that a run could have.
impl<'a> From<&'a Setup> for Asked<'a> {
    ghost from_gives = { λ setup wanted. asked_by wanted ≡ setup.now };

    fn from(setup: &'a Setup) -> Asked<'a> {
        Asked {
            policy: setup.policy,
            count: setup.count,
            slice: setup.slice,
            priorities: &setup.priority,
        }
    }
}

// Whether n is from low to high: `contains` in the words of the definitions.
fn is_within(low: u32, high: u32, n: u32) -> bool
    ensures { result ≡ within low high n }
{
    (low..=high).contains(&n)
}

// Whether the bytes are 0.
fn all_zero(bytes: &[u8]) -> bool
    ensures { result ≡ zeros bytes.now }
{
    for byte in bytes {
        if *byte != 0 {
            return false;
        }
    }
    true
}

// Whether a slice is as the policy asks.
#[tactic(auto, unfolding(rule::specs::Setups::slice_fits_lem))]
fn slice_fits(policy: Policy, slice: u32) -> bool
    ensures { result ≡ slice_fits_lem (policy_number policy) slice }
{
    match policy {
        Policy::Priority => slice == 0,
        Policy::RoundRobin => is_within(1, 65_535, slice),
    }
}

// The first byte that the policy and the count want to be 0, as all after it.
fn first_unused(policy: Policy, count: u32) -> usize
    ensures { result ≡ cond (eqb (policy_number policy) 1) count 0 }
{
    match policy {
        Policy::Priority => count as usize,
        Policy::RoundRobin => 0,
    }
}

// Whether there are 32 bytes, each 0 that the policy and the count want to be 0.
#[tactic(auto, unfolding(rule::specs::Setups::bytes_fit_lem))]
fn bytes_fit(policy: Policy, count: u32, bytes: &[u8]) -> bool
    requires { count ≤ 32 }
    ensures { result ≡ bytes_fit_lem (policy_number policy) count bytes.now }
{
    bytes.len() == 32 && all_zero(&bytes[first_unused(policy, count)..])
}

// Why a setup is refused, if it is.
#[tactic(auto, unfolding(rule::specs::Setups::setup_refusal_lem))]
pub fn setup_refusal(wanted: Asked<'_>) -> Result<(), SetupRefusal>
    ensures { setup_number result ≡ setup_refusal_lem (asked_by wanted.entry) }
{
    let policy = Policy::try_from(wanted.policy)?;
    if !is_within(1, 32, wanted.count) {
        return Err(SetupRefusal::WrongCount);
    }
    if !slice_fits(policy, wanted.slice) {
        return Err(SetupRefusal::WrongSlice);
    }
    if !bytes_fit(policy, wanted.count, wanted.priorities) {
        return Err(SetupRefusal::WrongPriorities);
    }
    Ok(())
}

// Judges a setup and puts it together.
pub fn judged_setup(wanted: Asked<'_>) -> Result<Setup, SetupRefusal>
    ensures { JudgesSetup (asked_by wanted.entry) result }
{
    setup_refusal(wanted)?;
    let mut priority = [0; 32];
    priority.copy_from_slice(wanted.priorities);
    Ok(Setup {
        policy: wanted.policy,
        count: wanted.count,
        slice: wanted.slice,
        priority,
    })
}
