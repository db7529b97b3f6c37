//! How many connections are open, as threads report it.
use crate::same::expect_same;
use std::thread;
use std::time::{Duration, Instant};
use up_server::ConnectionLimit;

#[test]
fn lets_the_third_in_once_one_has_left(rt: HostRuntime) {
    let limit = ConnectionLimit::new();
    let shared_limit = &limit;
    let shared = &rt;
    expect_same(
        &rt,
        &(limit.acquire(&rt, 2), limit.acquire(&rt, 2)),
        &(1, 2),
    );
    let told = thread::scope(thread::scope_env(), &rt, |scope| -> u64 {
        let third = scope
            .spawn(move || shared_limit.acquire(shared, 2))
            .expect(shared, "a thread");
        shared_limit.release(shared);
        third.join(shared)
    });
    expect_same(&rt, &told, &2);
}

#[test]
fn waits_in_want_until_another_has_left(rt: HostRuntime) {
    let limit = ConnectionLimit::new();
    let shared_limit = &limit;
    let shared = &rt;
    let alone = limit.acquire(&rt, 9);
    limit.release_and_back_off(&rt, alone);
    expect_same(
        &rt,
        &(limit.acquire(&rt, 9), limit.acquire(&rt, 9)),
        &(1, 2),
    );
    limit.release(&rt);
    limit.release_and_back_off(&rt, 2);
    expect_same(
        &rt,
        &(limit.acquire(&rt, 9), limit.acquire(&rt, 9)),
        &(1, 2),
    );
    thread::scope(thread::scope_env(), &rt, |scope| {
        let other = scope
            .spawn(move || shared_limit.release(shared))
            .expect(shared, "a thread");
        shared_limit.release_and_back_off(shared, 2);
        other.join(shared);
    });
    expect_same(&rt, &limit.acquire(&rt, 1), &1);
}

/// Two connections stay while a third lacks a resource.
#[test]
fn waits_in_want_for_a_while(rt: HostRuntime) {
    let limit = ConnectionLimit::new();
    expect_same(
        &rt,
        &(limit.acquire(&rt, 9), limit.acquire(&rt, 9)),
        &(1, 2),
    );
    let third = limit.acquire(&rt, 9);
    let start = Instant::now(&rt).expect(&rt, "a time");
    limit.release_and_back_off(&rt, third);
    assert!(rt; start.elapsed(&rt).expect(&rt, "a time") < Duration::from_secs(10));
    expect_same(&rt, &limit.acquire(&rt, 9), &3);
}
